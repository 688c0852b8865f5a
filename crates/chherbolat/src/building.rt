// Frames built from plain numbers and bytes, into a lent slice of 13 bytes (docs/ABI.md).
ghost use Rattle.std.specs.Prelude.{◌≡◌, true, false};
ghost use Rattle.frame_building.specs.declared.Way.TheVariants.{Iso};
ghost use Rattle.abi_answers.specs.Answers.{answer_of};
ghost use Rattle.abi_building.specs.Building.{plain, plain_data, building_in, building_in_leaves, building, building_leaves};

use abi_answers::Answer;

#[unsafe(no_mangle)]
pub extern "C" fn chherbolat_new_from_parameters(
    extended: bool,
    id: u32,
    remote: bool,
    own: bool,
    dlc: usize,
    data: &[u8],
    frame: &mut [u8],
) -> Answer
    ensures value { result ≡ answer_of (building 6 frame.old (plain extended id remote own dlc «data».now)) }
    ensures frame_after { frame.new ≡ building_leaves 6 frame.old (plain extended id remote own dlc «data».now) }
{
    abi_building::chherbolat_new_from_parameters(extended, id, remote, own, dlc, data, frame)
}

#[unsafe(no_mangle)]
pub extern "C" fn chherbolat_new_with_remote_length(
    extended: bool,
    id: u32,
    remote: bool,
    own: bool,
    dlc: usize,
    data: &[u8],
    frame: &mut [u8],
) -> Answer
    ensures value { result ≡ answer_of (building_in Iso 6 frame.old (plain extended id remote own dlc «data».now)) }
    ensures frame_after { frame.new ≡ building_in_leaves Iso 6 frame.old (plain extended id remote own dlc «data».now) }
{
    abi_building::chherbolat_new_with_remote_length(extended, id, remote, own, dlc, data, frame)
}

#[unsafe(no_mangle)]
pub extern "C" fn chherbolat_new(extended: bool, id: u32, data: &[u8], frame: &mut [u8]) -> Answer
    ensures value { result ≡ answer_of (building 3 frame.old (plain_data extended id false «data».now)) }
    ensures frame_after { frame.new ≡ building_leaves 3 frame.old (plain_data extended id false «data».now) }
{
    abi_building::chherbolat_new(extended, id, data, frame)
}

#[unsafe(no_mangle)]
pub extern "C" fn chherbolat_new_self_reception(
    extended: bool,
    id: u32,
    data: &[u8],
    frame: &mut [u8],
) -> Answer
    ensures value { result ≡ answer_of (building 3 frame.old (plain_data extended id true «data».now)) }
    ensures frame_after { frame.new ≡ building_leaves 3 frame.old (plain_data extended id true «data».now) }
{
    abi_building::chherbolat_new_self_reception(extended, id, data, frame)
}
