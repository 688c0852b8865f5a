// The line of the listed identifiers, and identifiers by name.
ghost use Rattle.std.specs.Prelude.{◌≡◌, ◌+◌, ◌*◌, ◌/◌, ◌%◌, ◌^◌, ◌<◌, ◌≤◌, ◌++◌, length};
ghost use Rattle.filter_report.specs.Hex.{hex_digit};
ghost use Rattle.filter_report.specs.Listed.{hex_width, id_text, ids_text, front_text, listed_text};

use crate::pieces;
use text::Page;

// No more identifiers are named in a line.
pub(crate) const NAMED_LIMIT: usize = 16;

fn hex_width(extended: bool) -> u32
    ensures { (result ≡ hex_width extended) × (result ≤ 8) }
{
    if extended { 8 } else { 3 }
}

// The hexadecimal digit at a position, counted from the last.
fn digit_at(number: u32, position: u32) -> u8
    requires { position < 8 }
    ensures { result ≡ hex_digit (number / 16 ^ position % 16) }
{
    pieces::hex_digit(((number >> (4 * position)) % 16) as u8)
}

pub(crate) fn put_id(extended: bool, id: u32, page: &mut Page<512>)
    requires { length page.old + 11 ≤ 512 }
    ensures { page.new ≡ page.old ++ id_text extended id }
{
    page.add(b" 0x");
    let width = hex_width(extended);
    for i in 0..width {
        page.add(&[digit_at(id, width - 1 - i)]);
    }
}

fn put_ids(extended: bool, ids: &[u32], page: &mut Page<512>)
    requires { length page.old + 11 * length ids.now ≤ 512 }
    ensures { page.new ≡ page.old ++ ids_text extended ids.now }
{
    for id in ids {
        put_id(extended, *id, page);
    }
}

// The first identifiers of a list.
fn put_front(extended: bool, list: &[u32], page: &mut Page<512>)
    requires { length page.old + 179 ≤ 512 }
    ensures { page.new ≡ page.old ++ front_text extended list.now }
{
    if list.len() <= NAMED_LIMIT {
        put_ids(extended, list, page);
    } else {
        put_ids(extended, &list[..NAMED_LIMIT], page);
        page.add(b" ..");
    }
}

// The line of the listed identifiers.
pub(crate) fn put_listed(extended: bool, list: &[u32], page: &mut Page<512>)
    requires { (length list.now ≤ 32768) × (length page.old + 193 ≤ 512) }
    ensures { page.new ≡ page.old ++ listed_text extended list.now }
{
    page.add(b"listed ");
    page.add_decimal(list.len());
    page.add(b":");
    put_front(extended, list, page);
    page.add(b"\n");
}
