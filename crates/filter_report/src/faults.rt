// The text about a line at fault.
ghost use Rattle.std.specs.Prelude.{◌≡◌, ◌+◌, ◌≤◌, ◌++◌, length};
ghost use Rattle.std.specs.List.{prefix_len};
ghost use Rattle.filter_report.specs.Faults.{is_printable, printed, shown_of, fault_text, fault_said};

use crate::line::{Fault, Format, unblanked};
use text::Page;

// No more characters of a line are shown.
const MOST_SHOWN: usize = 32;

// A line at fault, and its number.
#[derive(Clone, Copy, Debug, PartialEq, Eq)]
pub struct FaultyLine<'a> {
    pub fault: Fault,
    pub number: usize,
    pub line: &'a [u8],
    ghost few: { number ≤ 65537 },
}

fn is_printable(character: u8) -> bool
    ensures { result ≡ is_printable character }
{
    matches!(character, b' '..=b'~')
}

// How many printable characters stand in front.
fn printable(line: &[u8]) -> usize
    ensures value { result ≡ prefix_len is_printable line.now }
    ensures within { result ≤ length line.now }
{
    line.iter().take_while(|c| is_printable(**c)).count()
}

fn printed(line: &[u8]) -> &[u8]
    ensures { result.now ≡ printed line.now }
{
    &line[..printable(line)]
}

// What a line shows.
fn put_shown(line: &[u8], page: &mut Page<512>)
    requires { length page.old + 34 ≤ 512 }
    ensures { page.new ≡ page.old ++ shown_of line.now }
{
    let shown = printed(unblanked(line));
    if shown.len() <= MOST_SHOWN {
        page.add(shown);
    } else {
        page.add(&shown[..MOST_SHOWN]);
        page.add(b"..");
    }
}

// What is wrong, behind what a line shows.
fn said(format: Format, fault: Fault) -> &'static [u8]
    ensures { result.now ≡ fault_said format.extended format.hex fault }
{
    match fault {
        Fault::Above if format.extended => {
            b"\" is above 0x1FFFFFFF, the largest extended identifier\n"
        }
        Fault::Above => b"\" is above 0x7FF, the largest standard identifier\n",
        Fault::NotANumber if format.hex => b"\" is not a hexadecimal number\n",
        Fault::NotANumber => b"\" is not a number (hexadecimal needs 0x, or --hex)\n",
    }
}

impl FaultyLine<'_> {
    pub(crate) fn text(&self, format: Format) -> Page<512>
        ensures { result ≡ fault_text self.now.number self.now.line.now (fault_said format.extended format.hex self.now.fault) }
    {
        let mut page = Page::new();
        page.add(b"line ");
        page.add_decimal(self.number);
        page.add(b": \"");
        put_shown(self.line, &mut page);
        page.add(said(format, self.fault));
        page
    }
}
