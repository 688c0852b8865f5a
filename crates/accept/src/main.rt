// Reads a frame file on standard input, at most one byte more than the longest, and prints the report on it. Standard error
// says in words why a file is refused, and behind `error:` what went wrong with input or output.
#![tactic(auto)]

use std::io::Write;
use thiserror::Error;

#[derive(Clone, Copy, Debug, Error)]
enum Failure {
    #[error("standard input can't be read")]
    Input,
    #[error("the report can't be written")]
    Report,
}

// No words are longer than the buffer.
fn print_words(rt: &HostRuntime, file: &[u8]) {
    let mut text = [0u8; 128];
    let Ok(length) = file_words::words(file, &mut text) else {
        return;
    };
    if let Some(words) = text.get(..length) {
        let _ = rt.stderr().write_all(b"accept: ");
        let _ = rt.stderr().write_all(words);
    }
}

// The longest report is shorter than the buffer: 4,096 lines of at most 22 characters, and the last.
fn print_report(rt: &HostRuntime, file: &[u8]) -> Result<(), Failure> {
    let mut text = [0u8; 131072];
    let length = file_report::report(file, &mut text).map_err(|_| Failure::Report)?;
    let report = text.get(..length).ok_or(Failure::Report)?;
    rt.stdout().write_all(report).map_err(|_| Failure::Report)?;
    if report.starts_with(b"refused") {
        print_words(rt, file);
    }
    Ok(())
}

fn answer(rt: &HostRuntime) -> Result<(), Failure> {
    let mut file = [0u8; 53396];
    let length = standard_input::read_input(&mut rt.stdin(), &mut file).map_err(
        |_| Failure::Input,
    )?;
    print_report(rt, &file[..length])
}

fn main(rt: HostRuntime) {
    if let Err(failure) = answer(&rt) {
        let _ = eprintln!(rt; "accept: error: {failure}");
    }
}
