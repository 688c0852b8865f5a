// Standard input, for the programs.
#![tactic(auto)]

ghost use Rattle.standard_input.specs.Within.{Within};

use std::io;
use std::io::Read;

// Standard input up to its end, or as much as the buffer holds. What is read comes from outside, so the contract says how much, and no more.
pub fn read_input<R: Read>(input: &mut R, buffer: &mut [u8]) -> io::Result<usize>
    ensures { Within result buffer.new }
{
    let mut done = 0;
    while done < buffer.len() {
        let more = input.read(&mut buffer[done..])?;
        if more == 0 {
            break;
        }
        done += more;
    }
    Ok(done)
}
