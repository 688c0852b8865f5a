// What the information byte of a frame of 13 bytes says, for other languages: each field as an answer of two numbers (docs/ABI.md).
#![tactic(auto)]

ghost use Rattle.std.specs.Prelude.{◌≡◌};
ghost use Rattle.laws.specs.Said.{gives};
ghost use Rattle.laws.specs.Row.{bit};
ghost use Rattle.frame_info.specs.Info.{extended_of, remote_of, own_of, code_of, data_length_of, data_offset_of};
ghost use Rattle.abi_answers.specs.Answers.{answer_of, whole};

use abi_answers::{Answer, answered, sized};

#[tactic(auto, unfolding(abi_answers::specs::Answers::sized))]
#[unsafe(no_mangle)]
pub extern "C" fn chherbolat_is_extended_format(frame: &[u8]) -> Answer
    ensures { result ≡ answer_of (whole 0 frame.now (gives (bit (extended_of frame.now)))) }
{
    answered(sized(frame, 0).map(|frame| u64::from(frame_info::is_extended_format(frame))))
}

#[tactic(auto, unfolding(abi_answers::specs::Answers::sized))]
#[unsafe(no_mangle)]
pub extern "C" fn chherbolat_is_remote_request(frame: &[u8]) -> Answer
    ensures { result ≡ answer_of (whole 0 frame.now (gives (bit (remote_of frame.now)))) }
{
    answered(sized(frame, 0).map(|frame| u64::from(frame_info::is_remote_request(frame))))
}

#[tactic(auto, unfolding(abi_answers::specs::Answers::sized))]
#[unsafe(no_mangle)]
pub extern "C" fn chherbolat_is_self_reception(frame: &[u8]) -> Answer
    ensures { result ≡ answer_of (whole 0 frame.now (gives (bit (own_of frame.now)))) }
{
    answered(sized(frame, 0).map(|frame| u64::from(frame_info::is_self_reception(frame))))
}

#[tactic(auto, unfolding(abi_answers::specs::Answers::sized))]
#[unsafe(no_mangle)]
pub extern "C" fn chherbolat_data_length_code(frame: &[u8]) -> Answer
    ensures { result ≡ answer_of (whole 0 frame.now (gives (code_of frame.now))) }
{
    answered(sized(frame, 0).map(|frame| frame_info::data_length_code(frame) as u64))
}

#[tactic(auto, unfolding(abi_answers::specs::Answers::sized))]
#[unsafe(no_mangle)]
pub extern "C" fn chherbolat_data_length(frame: &[u8]) -> Answer
    ensures { result ≡ answer_of (whole 0 frame.now (gives (data_length_of frame.now))) }
{
    answered(sized(frame, 0).map(|frame| frame_info::data_length(frame) as u64))
}

#[tactic(auto, unfolding(abi_answers::specs::Answers::sized))]
#[unsafe(no_mangle)]
pub extern "C" fn chherbolat_data_offset(frame: &[u8]) -> Answer
    ensures { result ≡ answer_of (whole 0 frame.now (gives (data_offset_of frame.now))) }
{
    answered(sized(frame, 0).map(|frame| frame_info::data_offset(frame) as u64))
}
