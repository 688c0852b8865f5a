// Frames built from plain numbers and bytes, into a lent slice of 13 bytes (docs/ABI.md).
#![tactic(auto)]

ghost use Rattle.std.specs.Prelude.{◌≡◌, true, false};
ghost use Rattle.frame_building.specs.Building.{build_in, built_over, building_said};
ghost use Rattle.frame_building.specs.declared.Way.TheVariants.{Iso};
ghost use Rattle.abi_answers.specs.Answers.{answer_of};
ghost use Rattle.abi_building.specs.Building.{id_from, plain, plain_data, building_in, building_in_leaves, building, building_leaves};

use abi_answers::Answer;
use frame_building::Way;
use identifiers::{ExtendedId, Id, StandardId};
use refusals::Refusal;

// The identifier of a format and a number; refusal 1 for a standard number that no u16 holds.
fn id_of(extended: bool, raw: u32) -> Result<Id, Refusal>
    ensures { result ≡ id_from extended raw }
{
    if extended {
        return Ok(Id::Extended(ExtendedId(raw)));
    }
    if raw <= 0xFFFF {
        return Ok(Id::Standard(StandardId(raw as u16)));
    }
    Err(Refusal::IdentifierAboveLimit)
}

// What is built of plain numbers, into a buffer, which stays as it was after a refusal.
fn built(
    way: Way,
    extended: bool,
    id: u32,
    remote: bool,
    own: bool,
    dlc: usize,
    data: &[u8],
    frame: &mut [u8; 13],
) -> Result<(), Refusal>
    ensures value { building_said result ≡ (build_in way (plain extended id remote own dlc «data».now)).0 }
    ensures frame_after { frame.new ≡ built_over (build_in way (plain extended id remote own dlc «data».now)) frame.old }
{
    // With `?` here the exports take ten instructions more.
    match id_of(extended, id) {
        Ok(id) => frame_building::build_into(way, id, remote, own, dlc, data, frame),
        Err(refusal) => Err(refusal),
    }
}

// The same into a lent frame, the argument of this number.
fn build(
    way: Way,
    extended: bool,
    id: u32,
    remote: bool,
    own: bool,
    dlc: usize,
    data: &[u8],
    argument: usize,
    frame: &mut [u8],
) -> Answer
    ensures value { result ≡ answer_of (building_in way argument frame.old (plain extended id remote own dlc «data».now)) }
    ensures frame_after { frame.new ≡ building_in_leaves way argument frame.old (plain extended id remote own dlc «data».now) }
{
    if frame.len() != 13 {
        return abi_answers::wrong_length(argument);
    }
    let mut bytes = [0; 13];
    let made = built(way, extended, id, remote, own, dlc, data, &mut bytes);
    abi_answers::deliver(made.map(|()| 13), &bytes, argument, frame)
}

#[unsafe(no_mangle)]
pub extern "C" fn chherbolat_new_from_parameters(
    extended: bool,
    id: u32,
    remote: bool,
    own: bool,
    dlc: usize,
    data: &[u8],
    frame: &mut [u8],
) -> Answer
    ensures value { result ≡ answer_of (building 6 frame.old (plain extended id remote own dlc «data».now)) }
    ensures frame_after { frame.new ≡ building_leaves 6 frame.old (plain extended id remote own dlc «data».now) }
{
    build(Way::Rust, extended, id, remote, own, dlc, data, 6, frame)
}

#[unsafe(no_mangle)]
pub extern "C" fn chherbolat_new_with_remote_length(
    extended: bool,
    id: u32,
    remote: bool,
    own: bool,
    dlc: usize,
    data: &[u8],
    frame: &mut [u8],
) -> Answer
    ensures value { result ≡ answer_of (building_in Iso 6 frame.old (plain extended id remote own dlc «data».now)) }
    ensures frame_after { frame.new ≡ building_in_leaves Iso 6 frame.old (plain extended id remote own dlc «data».now) }
{
    build(Way::Iso, extended, id, remote, own, dlc, data, 6, frame)
}

#[unsafe(no_mangle)]
pub extern "C" fn chherbolat_new(extended: bool, id: u32, data: &[u8], frame: &mut [u8]) -> Answer
    ensures value { result ≡ answer_of (building 3 frame.old (plain_data extended id false «data».now)) }
    ensures frame_after { frame.new ≡ building_leaves 3 frame.old (plain_data extended id false «data».now) }
{
    let dlc = data.len();
    build(Way::Rust, extended, id, false, false, dlc, data, 3, frame)
}

#[unsafe(no_mangle)]
pub extern "C" fn chherbolat_new_self_reception(
    extended: bool,
    id: u32,
    data: &[u8],
    frame: &mut [u8],
) -> Answer
    ensures value { result ≡ answer_of (building 3 frame.old (plain_data extended id true «data».now)) }
    ensures frame_after { frame.new ≡ building_leaves 3 frame.old (plain_data extended id true «data».now) }
{
    let dlc = data.len();
    build(Way::Rust, extended, id, false, true, dlc, data, 3, frame)
}
