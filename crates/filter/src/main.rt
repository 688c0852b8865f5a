// Reads a list of identifiers on standard input, at most one byte more than the longest, and prints its filter. The arguments are the format, and
// before it `--hex` where bare numbers are hexadecimal. Standard error says behind `error:` what went wrong with input, output or the arguments.
#![tactic(auto)]

use std::env::Env;
use std::io::Write;
use thiserror::Error;

#[derive(Clone, Copy, Debug, Error)]
enum Failure {
    #[error("the format is standard or extended")]
    Format,
    #[error("standard input can't be read")]
    Input,
    #[error("the text is longer than can be")]
    TooLong,
    #[error("the text can't be written")]
    Output,
}

#[derive(Clone, Copy, Debug, PartialEq, Eq)]
struct Request {
    extended: bool,
    hex: bool,
}

// An argument, or nothing where it is missing or longer than any that has a meaning.
fn argument<'a>(rt: &HostRuntime, place: usize, word: &'a mut [u8; 16]) -> &'a [u8] {
    match rt.arg(place, word) {
        Ok(length) => &word[..length],
        Err(_) => &[],
    }
}

fn requested(rt: &HostRuntime) -> Result<Request, Failure> {
    let mut word = [0u8; 16];
    let hex = argument(rt, 1, &mut word) == b"--hex".as_slice();
    let format = if hex { 2 } else { 1 };
    match argument(rt, format, &mut word) {
        b"standard" => Ok(Request {
            extended: false,
            hex,
        }),
        b"extended" => Ok(Request {
            extended: true,
            hex,
        }),
        _ => Err(Failure::Format),
    }
}

// No text is longer than the buffer.
fn print_text(rt: &HostRuntime, request: Request, list: &[u8]) -> Result<(), Failure> {
    let mut text = [0u8; 512];
    let length = filter_report::filter_text(request.extended, request.hex, list, &mut text).map_err(
        |_| Failure::TooLong,
    )?;
    let text = text.get(..length).ok_or(Failure::TooLong)?;
    rt.stdout().write_all(text).map_err(|_| Failure::Output)
}

fn print_filter(rt: &HostRuntime) -> Result<(), Failure> {
    let request = requested(rt)?;
    let mut list = [0u8; 65537];
    let length = standard_input::read_input(&mut rt.stdin(), &mut list).map_err(
        |_| Failure::Input,
    )?;
    print_text(rt, request, &list[..length])
}

fn main(rt: HostRuntime) {
    if let Err(failure) = print_filter(&rt) {
        let _ = eprintln!(rt; "filter: error: {failure}");
    }
}
