// Frame information: what byte 0 of the 13-byte buffer says, and with it where the data are.
#![tactic(auto)]

ghost use Rattle.std.specs.Prelude.{◌≡◌, ◌/◌, ◌%◌, ◌^◌, ◌<◌, eqb, get_or};
ghost use Rattle.frame_info.specs.Info.{extended_of, remote_of, own_of, code_of, data_length_of, data_offset_of};

// One bit of byte 0, told from the lowest.
fn bit(frame: &[u8; 13], place: u32) -> bool
    requires { place < 8 }
    ensures { result ≡ eqb (get_or frame.now 0 0 / 2 ^ place % 2) 1 }
{
    (frame[0] >> place) % 2 == 1
}

pub fn is_extended_format(frame: &[u8; 13]) -> bool
    ensures { result ≡ extended_of frame.now }
{
    bit(frame, 7)
}

pub fn is_remote_request(frame: &[u8; 13]) -> bool
    ensures { result ≡ remote_of frame.now }
{
    bit(frame, 6)
}

pub fn is_self_reception(frame: &[u8; 13]) -> bool
    ensures { result ≡ own_of frame.now }
{
    bit(frame, 4)
}

pub fn data_length_code(frame: &[u8; 13]) -> usize
    ensures { result ≡ code_of frame.now }
{
    (frame[0] % 16) as usize
}

#[tactic(auto, unfolding(crate::specs::Info::data_length_of))]
pub fn data_length(frame: &[u8; 13]) -> usize
    ensures { result ≡ data_length_of frame.now }
{
    if is_remote_request(frame) {
        return 0;
    }
    data_length_code(frame).min(8)
}

pub fn data_offset(frame: &[u8; 13]) -> usize
    ensures { result ≡ data_offset_of frame.now }
{
    if is_extended_format(frame) { 5 } else { 3 }
}
