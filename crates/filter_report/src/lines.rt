// What a text says, line by line.
ghost use Rattle.std.specs.Prelude.{◌≡◌, ◌*◌, ◌≤◌, length};
ghost use Rattle.identifiers.specs.Limits.{limit_of};
ghost use Rattle.filter_report.specs.Lines.{found_in};
ghost use Rattle.filter_report.specs.Text.{text_limit};
ghost use Rattle.filter_report.specs.Parts.{reading_found, count_within};

use crate::faults::FaultyLine;
use crate::line::Format;

// The identifiers into the front of a list, and how many they are, or the first line at fault. An identifier has a character and, but in the last line,
// a newline: a list half as long as the text has room for all.
pub(crate) fn read_list<'a>(
    format: Format,
    text: &'a [u8],
    list: &mut [u32],
) -> Result<usize, FaultyLine<'a>>
    requires { (length text.now ≤ 2 * length list.old) × (length text.now ≤ text_limit) }
    ensures { (reading_found result list.new ≡ found_in (limit_of format.extended) format.hex text.now)
        × count_within result (length list.new) }
{
    let mut count = 0;
    let mut number = 0;
    for line in text.split(|c| *c == b'\n') {
        number += 1;
        match format.read_line(line) {
            Ok(Some(id)) => {
                list[count] = id;
                count += 1;
            }
            Ok(None) => {}
            Err(fault) => return Err(FaultyLine {
                fault,
                number,
                line,
            }),
        }
    }
    Ok(count)
}
