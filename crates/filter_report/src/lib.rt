// The text for a list of identifiers, given as text: the list's filter, or the line at fault.
#![tactic(auto)]

mod faults;
mod line;
mod lines;
mod named;
mod pieces;
mod through;

ghost use Rattle.std.specs.Prelude.{◌≡◌, ◌+◌, ◌^◌, ◌<◌, ◌≤◌, ◌++◌, length};
ghost use Rattle.laws.specs.Laid.{laying, written};
ghost use Rattle.text.specs.Laying.{laying_said};
ghost use Rattle.identifiers.specs.Limits.{width_of, limit_of};
ghost use Rattle.filter_list.specs.Pattern.{pattern_of};
ghost use Rattle.filter_list.specs.Answers.{first_above, through_of, registers_of_list};
ghost use Rattle.filter_report.specs.Lines.{found_in};
ghost use Rattle.filter_report.specs.Text.{text_limit, registers_text, lines_text, list_text, found_text, text_of};

use filter_list::Listed;
use line::Format;
use refusals::Refusal;
use text::Page;
use through::Passed;

// A longer text is not read.
pub const TEXT_LIMIT: usize = 65536;

// A pattern and its registers, a line each.
fn put_registers(pattern: &[u8], registers: &[u8], page: &mut Page<512>)
    requires { (length pattern.now ≤ 29) × (length registers.now ≤ 8) × (length page.old + 65 ≤ 512) }
    ensures { page.new ≡ page.old ++ registers_text pattern.now registers.now }
{
    page.add(b"pattern ");
    page.add(pattern);
    page.add(b"\nregisters ");
    pieces::put_hex(registers, page);
    page.add(b"\n");
}

// All lines of a list's filter.
fn lines_text(extended: bool, list: &[u32], pattern: &[u8], listed: Listed) -> Page<512>
    requires { (length list.now ≤ 32768)
        × (first_above (limit_of extended) list.now ≡ length list.now)
        × (pattern.now ≡ pattern_of (width_of extended) list.now)
        × (listed.through ≡ through_of extended (registers_of_list extended list.now)) }
    ensures { result ≡ lines_text extended list.now pattern.now listed.registers listed.through }
{
    let through = listed.through as usize;
    let mut page = Page::new();
    named::put_listed(extended, list, &mut page);
    put_registers(pattern, &listed.registers, &mut page);
    Passed { pattern, through }.put_through(extended, list, &mut page);
    page
}

// The text of a list within its limit: such a list is refused only where it is empty.
fn list_text(extended: bool, list: &[u32]) -> Page<512>
    requires { (length list.now ≤ 32768) × (first_above (limit_of extended) list.now ≡ length list.now) }
    ensures { result ≡ list_text extended list.now }
{
    let mut pattern = [0u8; 29];
    match filter_list::from_list(extended, list, &mut pattern) {
        Ok(listed) => lines_text(
            extended,
            list,
            &pattern[..identifiers::width(extended)],
            listed,
        ),
        Err(_) => plain_text(b"no identifiers\n"),
    }
}

fn plain_text(text: &[u8]) -> Page<512>
    requires { length text.now ≤ 512 }
    ensures { result ≡ text.now }
{
    let mut page = Page::new();
    page.add(text);
    page
}

// The text of a list that is not too long.
fn read_text(format: Format, text: &[u8]) -> Page<512>
    requires { length text.now ≤ text_limit }
    ensures { result ≡ found_text format.extended format.hex (found_in (limit_of format.extended) format.hex text.now) }
{
    let mut list = [0u32; 32768];
    match lines::read_list(format, text, &mut list) {
        Ok(count) => list_text(format.extended, &list[..count]),
        Err(faulty) => faulty.text(format),
    }
}

fn text_of(format: Format, text: &[u8]) -> Page<512>
    ensures { result ≡ text_of format.extended format.hex text.now }
{
    if text.len() > TEXT_LIMIT {
        return plain_text(b"longer than 65536 bytes\n");
    }
    read_text(format, text)
}

pub fn filter_text(extended: bool, hex: bool, text: &[u8], out: &mut [u8]) -> Result<usize, Refusal>
    ensures result_value { laying_said result ≡ laying (text_of extended hex text.now) out.old }
    ensures out_after { out.new ≡ written (laying (text_of extended hex text.now) out.old) (text_of extended hex text.now) out.old }
{
    let page = text_of(Format { extended, hex }, text);
    text::lay(page.as_slice(), out)
}
