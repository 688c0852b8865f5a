// What a frame of 13 bytes holds, for other languages: its identifier as an answer of two numbers, its bytes into a lent output (docs/ABI.md).
#![tactic(auto)]

ghost use Rattle.std.specs.Prelude.{◌≡◌};
ghost use Rattle.laws.specs.Said.{gives};
ghost use Rattle.identifiers.specs.Limits.{raw_of};
ghost use Rattle.frame_reading.specs.Buffer.{id_of, data_of, used_of};
ghost use Rattle.abi_answers.specs.Answers.{answer_of, whole};
ghost use Rattle.abi_frames.specs.Frames.{taking, taking_leaves};

use abi_answers::{Answer, lay, refused, sized};
use identifiers::Id;

fn identifier_answer(id: Id) -> Answer
    ensures { result ≡ answer_of (gives (raw_of id)) }
{
    match id {
        Id::Standard(standard) => abi_answers::given(standard.as_raw() as u64),
        Id::Extended(extended) => abi_answers::given(extended.as_raw() as u64),
    }
}

// The identifier's number; its format is `is_extended_format`.
#[tactic(auto, unfolding(abi_answers::specs::Answers::sized, laws::specs::Laid::written))]
#[unsafe(no_mangle)]
pub extern "C" fn chherbolat_identifier(frame: &[u8]) -> Answer
    ensures { result ≡ answer_of (whole 0 frame.now (gives (id_of frame.now))) }
{
    match sized(frame, 0) {
        Ok(frame) => identifier_answer(frame_reading::identifier(frame)),
        Err(refusal) => refused(refusal),
    }
}

#[tactic(auto, unfolding(abi_answers::specs::Answers::sized, laws::specs::Laid::written))]
#[unsafe(no_mangle)]
pub extern "C" fn chherbolat_data(frame: &[u8], out: &mut [u8]) -> Answer
    ensures value { result ≡ answer_of (taking (data_of frame.now) frame.now out.old) }
    ensures out_after { out.new ≡ taking_leaves (data_of frame.now) frame.now out.old }
{
    match sized(frame, 0) {
        Ok(frame) => lay(frame_reading::data(frame), out),
        Err(refusal) => refused(refusal),
    }
}

#[tactic(auto, unfolding(abi_answers::specs::Answers::sized, laws::specs::Laid::written))]
#[unsafe(no_mangle)]
pub extern "C" fn chherbolat_as_slice(frame: &[u8], out: &mut [u8]) -> Answer
    ensures value { result ≡ answer_of (taking (used_of frame.now) frame.now out.old) }
    ensures out_after { out.new ≡ taking_leaves (used_of frame.now) frame.now out.old }
{
    match sized::<13>(frame, 0) {
        Ok(frame) => {
            let bytes = *frame;
            lay(frame_reading::as_slice(&bytes), out)
        }
        Err(refusal) => refused(refusal),
    }
}
