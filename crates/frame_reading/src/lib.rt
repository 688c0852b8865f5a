// Frames: the identifier and the data of the 13-byte buffer, read.
#![tactic(auto)]

ghost use Rattle.std.specs.Prelude.{◌≡◌, true, false, ◌≤◌};
ghost use Rattle.identifiers.specs.Limits.{limit_of, is_extended, raw_of};
ghost use Rattle.frame_reading.specs.Buffer.{id_in, data_of, used_of};
ghost use Rattle.frame_reading.specs.Reading.{identifier_of, id_said};

use identifiers::{ExtendedId, Id, StandardId};

fn standard_raw(frame: &[u8; 13]) -> u16
    ensures { (result ≡ id_in false frame.now) × (result ≤ limit_of false) }
{
    u16::from_be_bytes([frame[1], frame[2]]) / 32
}

fn extended_raw(frame: &[u8; 13]) -> u32
    ensures { (result ≡ id_in true frame.now) × (result ≤ limit_of true) }
{
    u32::from_be_bytes([frame[1], frame[2], frame[3], frame[4]]) / 8
}

pub fn identifier(frame: &[u8; 13]) -> Id
    ensures { (id_said result ≡ identifier_of frame.now) × (raw_of result ≤ limit_of (is_extended result)) }
{
    if frame_info::is_extended_format(frame) {
        return Id::Extended(ExtendedId(extended_raw(frame)));
    }
    Id::Standard(StandardId(standard_raw(frame)))
}

pub fn data(frame: &[u8; 13]) -> &[u8]
    ensures { result.now ≡ data_of frame.now }
{
    let start = frame_info::data_offset(frame);
    let end = start + frame_info::data_length(frame);
    &frame[start..end]
}

// The bytes in use: all up to the end of the data.
pub fn as_slice(frame: &[u8; 13]) -> &[u8]
    ensures { result.now ≡ used_of frame.now }
{
    let end = frame_info::data_offset(frame) + frame_info::data_length(frame);
    &frame[..end]
}
