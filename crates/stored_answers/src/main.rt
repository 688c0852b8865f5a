// Replays the Rust's stored answers (on standard input, a line each; its first lines say how) and counts those that ours differ from.
#![tactic(auto)]

mod compilers;
mod replay;
mod stored_text;

ghost use Rattle.std.specs.Prelude.{◌≤◌, length};

use replay::Replay;
use std::io::Read;

// So many buffers of standard input are read, 64 MiB.
const MOST: u64 = 1024;

// As much as the buffer holds, or what comes before the end or a failure.
fn fill<R: Read>(input: &mut R, buffer: &mut [u8]) -> usize
    ensures { result ≤ length buffer.new }
{
    let mut done = 0;
    while done < buffer.len() {
        match input.read(&mut buffer[done..]) {
            Ok(more) if more > 0 => done += more,
            _ => break,
        }
    }
    done
}

fn main(rt: HostRuntime) {
    let mut input = rt.stdin();
    let mut buffer = [0u8; 0x1_0000];
    let mut replay = Replay::new();
    for _ in 0..MOST {
        let length = fill(&mut input, &mut buffer);
        if length == 0 {
            break;
        }
        replay.read(&buffer[..length]);
    }
    let Replay {
        answers,
        differ,
        ..
    } = replay;
    let _ = println!(rt; "{answers} answers replayed, {differ} differ");
}
