// Frames built: the 13-byte buffer made from what a frame says, or the refusal that is due.
#![tactic(auto)]

ghost use Rattle.std.specs.Prelude.{◌≡◌, true, false, [], ◌∷◌, ◌%◌, ◌≤◌, ◌<◌, ltb, length};
ghost use Rattle.laws.specs.Laid.{laid};
ghost use Rattle.laws.specs.Said.{refuses};
ghost use Rattle.identifiers.specs.Limits.{limit_of, is_extended, raw_of};
ghost use Rattle.frame_info.specs.Info.{data_start};
ghost use Rattle.frame_building.specs.Buffer.{info_byte, buffer_of};
ghost use Rattle.frame_building.specs.Building.{non_compliant, length_and_code, judge_by, build_of, most_of, build_in, built_over, building_said, built_said, asked, asked_data};

use identifiers::Id;
use octets::one_bit;
use refusals::Refusal;

// The ways of building: the Rust's, where a remote frame has code 0, and that of ISO 11898-1, where its code is the
// length that it asks for, 0 to 8.
#[derive(Clone, Copy, Debug, PartialEq, Eq)]
pub enum Way {
    Rust,
    Iso,
}

impl Way {
    // The largest code that a remote frame may have.
    fn most(self) -> usize
        ensures { result ≡ most_of self }
    {
        match self {
            Way::Rust => 0,
            Way::Iso => 8,
        }
    }
}

fn non_compliant_dlc(dlc: usize, length: usize) -> bool
    ensures { result ≡ non_compliant dlc length }
{
    if dlc > 15 {
        return true;
    }
    if length < 8 {
        return dlc != length;
    }
    length == 8 && dlc < 8
}

fn refuse_length(length: usize) -> Result<(), Refusal>
    ensures { building_said result ≡ refuses 2 ((length % 256) ∷ []) }
{
    Err(Refusal::InvalidDataLength((length % 256) as u8))
}

fn refuse_code(dlc: usize) -> Result<(), Refusal>
    ensures { building_said result ≡ refuses 3 ((dlc % 256) ∷ []) }
{
    Err(Refusal::NonCompliantDlc((dlc % 256) as u8))
}

fn judge_remote(most: usize, dlc: usize, length: usize) -> Result<(), Refusal>
    ensures { building_said result ≡ length_and_code (ltb most dlc) true dlc length }
{
    let has_data = length > 0;
    if has_data {
        return refuse_length(length);
    }
    if dlc > most {
        return refuse_code(dlc);
    }
    Ok(())
}

fn judge_data(dlc: usize, length: usize) -> Result<(), Refusal>
    ensures { building_said result ≡ length_and_code (non_compliant dlc length) false dlc length }
{
    if length > 8 {
        return refuse_length(length);
    }
    if non_compliant_dlc(dlc, length) {
        return refuse_code(dlc);
    }
    Ok(())
}

// By the largest code that a remote frame may have.
#[tactic(auto, unfolding(crate::specs::Building::judge_by))]
fn judge(most: usize, id: Id, remote: bool, dlc: usize, length: usize) -> Result<(), Refusal>
    ensures { building_said result ≡ judge_by most (is_extended id) (raw_of id) remote dlc length }
{
    if !id.within_limit() {
        return Err(Refusal::IdentifierAboveLimit);
    }
    if remote {
        return judge_remote(most, dlc, length);
    }
    judge_data(dlc, length)
}

fn info(extended: bool, remote: bool, own: bool, code: u8) -> u8
    requires { code < 16 }
    ensures { result ≡ info_byte extended remote own code }
{
    one_bit(extended) * 128 + (one_bit(remote) * 64 + (one_bit(own) * 16 + code))
}

// The buffer of a frame without data.
fn front(id: Id, remote: bool, own: bool, code: u8) -> [u8; 13]
    requires { (raw_of id ≤ limit_of (is_extended id)) × (code < 16) }
    ensures { result ≡ buffer_of (asked id remote own code []) }
{
    let mut frame = [0; 13];
    match id {
        Id::Standard(standard) => {
            let word = (standard.0 as u32) * 32;
            frame[0] = info(false, remote, own, code);
            frame[1] = octets::low_byte(word >> 8);
            frame[2] = octets::low_byte(word);
        }
        Id::Extended(extended) => {
            let word = extended.0 * 8;
            frame[0] = info(true, remote, own, code);
            frame[1] = octets::low_byte(word >> 24);
            frame[2] = octets::low_byte(word >> 16);
            frame[3] = octets::low_byte(word >> 8);
            frame[4] = octets::low_byte(word);
        }
    }
    frame
}

fn data_start(id: Id) -> usize
    ensures { result ≡ data_start (is_extended id) }
{
    match id {
        Id::Standard(_) => 3,
        Id::Extended(_) => 5,
    }
}

// The buffer with the data in it from a place on.
fn with_data(mut frame: [u8; 13], start: usize, data: &[u8]) -> [u8; 13]
    requires { (start ≤ 5) × (length «data».now ≤ 8) }
    ensures { result ≡ laid start «data».now frame }
{
    for i in 0..data.len() {
        frame[start + i] = data[i];
    }
    frame
}

// What is built, into a lent buffer, which stays as it was after a refusal.
pub fn build_into(
    way: Way,
    id: Id,
    remote: bool,
    own: bool,
    dlc: usize,
    data: &[u8],
    frame: &mut [u8; 13],
) -> Result<(), Refusal>
    ensures value { building_said result ≡ (build_in way (asked id remote own dlc «data».now)).0 }
    ensures frame_after { frame.new ≡ built_over (build_in way (asked id remote own dlc «data».now)) frame.old }
{
    judge(way.most(), id, remote, dlc, data.len())?;
    let front = front(id, remote, own, (dlc % 16) as u8);
    *frame = with_data(front, data_start(id), data);
    Ok(())
}

pub fn build(
    way: Way,
    id: Id,
    remote: bool,
    own: bool,
    dlc: usize,
    data: &[u8],
) -> Result<[u8; 13], Refusal>
    ensures { built_said result ≡ build_in way (asked id remote own dlc «data».now) }
{
    let mut frame = [0; 13];
    build_into(way, id, remote, own, dlc, data, &mut frame)?;
    Ok(frame)
}

pub fn new_from_parameters(
    id: Id,
    remote_request: bool,
    self_reception: bool,
    dlc: usize,
    data: &[u8],
) -> Result<[u8; 13], Refusal>
    ensures { built_said result ≡ build_of (asked id remote_request self_reception dlc «data».now) }
{
    build(Way::Rust, id, remote_request, self_reception, dlc, data)
}

// A remote frame may ask for a length, as in ISO 11898-1.
pub fn new_with_remote_length(
    id: Id,
    remote_request: bool,
    self_reception: bool,
    dlc: usize,
    data: &[u8],
) -> Result<[u8; 13], Refusal>
    ensures { built_said result ≡ build_in Way.Iso (asked id remote_request self_reception dlc «data».now) }
{
    build(Way::Iso, id, remote_request, self_reception, dlc, data)
}

pub fn new(id: Id, data: &[u8]) -> Result<[u8; 13], Refusal>
    ensures { built_said result ≡ build_of (asked_data id false «data».now) }
{
    new_from_parameters(id, false, false, data.len(), data)
}

pub fn new_self_reception(id: Id, data: &[u8]) -> Result<[u8; 13], Refusal>
    ensures { built_said result ≡ build_of (asked_data id true «data».now) }
{
    new_from_parameters(id, false, true, data.len(), data)
}
