// The words that a frame shows to a filter, and the positions that it names in them: those of the payload only for bytes that it has.
ghost use Rattle.std.specs.Prelude.{◌≡◌, true, false, ◌<◌, ◌≤◌, min};
ghost use Rattle.identifiers.specs.Limits.{limit_of};
ghost use Rattle.frame_info.specs.Info.{data_length_of};
ghost use Rattle.filter_compilers.specs.Table.{single_standard, dual_standard};
ghost use Rattle.filter_matcher.specs.Shown.{first_named, show_of, show_by};

use identifiers::{ExtendedId, Id, StandardId};

// What a frame shows: its word for a single filter and the positions that it names, and the same for the two halves of a dual filter.
#[derive(Clone, Copy, Debug, PartialEq, Eq)]
pub struct Shown {
    pub single: u32,
    pub named: u32,
    pub dual: u32,
    pub first: u32,
    pub second: u32,
}

// The positions that a standard frame with so many data bytes names to a single filter.
fn named_single(bytes: usize) -> u32
    ensures { result ≡ first_named single_standard bytes }
{
    match bytes {
        0 => 0xFFF0_0000,
        1 => 0xFFF0_FF00,
        _ => 0xFFF0_FFFF,
    }
}

// The same to the first half of a dual filter.
fn named_first(bytes: usize) -> u32
    ensures { result ≡ first_named dual_standard bytes }
{
    if bytes > 0 { 0xFFFF_000F } else { 0xFFF0_0000 }
}

fn show_standard(id: StandardId, rtr: u32, bytes: usize, byte: u32, next: u32) -> Shown
    requires { (id.0 ≤ limit_of false) × (rtr < 2) × (byte < 256) × (next < 256) }
    ensures { result ≡ show_by false id.0 rtr bytes byte next }
{
    let raw = id.0 as u32;
    let front = raw * 0x20_0000 + rtr * 0x10_0000;
    let second = raw * 32 + rtr * 16;
    Shown {
        single: front + (byte * 256 + next),
        named: named_single(bytes),
        dual: front + (byte / 16) * 0x1_0000 + (second + byte % 16),
        first: named_first(bytes),
        second: 0x0000_FFF0,
    }
}

fn show_extended(id: ExtendedId, rtr: u32) -> Shown
    requires { (id.0 ≤ limit_of true) × (rtr < 2) }
    ensures { result ≡ show_by true id.0 rtr 0 0 0 }
{
    let top = id.0 / 0x2000;
    Shown {
        single: id.0 * 8 + rtr * 4,
        named: 0xFFFF_FFFC,
        dual: top * 0x1_0000 + top,
        first: 0xFFFF_0000,
        second: 0x0000_FFFF,
    }
}

// How many data bytes a frame has, right as far as two, and no more matter: a code above 8 stands.
fn bytes_in(frame: &[u8; 13]) -> usize
    ensures { min result 2 ≡ min (data_length_of frame.now) 2 }
{
    if frame_info::is_remote_request(frame) {
        return 0;
    }
    frame_info::data_length_code(frame)
}

// The first two data places hold something whether the frame has these bytes or not; what it lacks is not named.
pub fn show(frame: &[u8; 13]) -> Shown
    ensures { result ≡ show_of frame.now }
{
    let id = frame_reading::identifier(frame);
    let rtr = octets::wide(octets::one_bit(frame_info::is_remote_request(frame)));
    match id {
        Id::Extended(id) => show_extended(id, rtr),
        Id::Standard(id) => {
            let bytes = bytes_in(frame);
            show_standard(
                id,
                rtr,
                bytes,
                octets::wide(frame[3]),
                octets::wide(frame[4]),
            )
        }
    }
}
