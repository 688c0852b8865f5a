// What a frame of 13 bytes holds, for other languages: its identifier as an answer of two numbers, its bytes into a lent output (docs/ABI.md).
ghost use Rattle.std.specs.Prelude.{◌≡◌};
ghost use Rattle.laws.specs.Said.{gives};
ghost use Rattle.frame_reading.specs.Buffer.{id_of, data_of, used_of};
ghost use Rattle.abi_answers.specs.Answers.{answer_of, whole};
ghost use Rattle.abi_frames.specs.Frames.{taking, taking_leaves};

use abi_answers::Answer;

// The identifier's number; its format is `is_extended_format`.
#[unsafe(no_mangle)]
pub extern "C" fn chherbolat_identifier(frame: &[u8]) -> Answer
    ensures { result ≡ answer_of (whole 0 frame.now (gives (id_of frame.now))) }
{
    abi_frames::chherbolat_identifier(frame)
}

#[unsafe(no_mangle)]
pub extern "C" fn chherbolat_data(frame: &[u8], out: &mut [u8]) -> Answer
    ensures value { result ≡ answer_of (taking (data_of frame.now) frame.now out.old) }
    ensures out_after { out.new ≡ taking_leaves (data_of frame.now) frame.now out.old }
{
    abi_frames::chherbolat_data(frame, out)
}

#[unsafe(no_mangle)]
pub extern "C" fn chherbolat_as_slice(frame: &[u8], out: &mut [u8]) -> Answer
    ensures value { result ≡ answer_of (taking (used_of frame.now) frame.now out.old) }
    ensures out_after { out.new ≡ taking_leaves (used_of frame.now) frame.now out.old }
{
    abi_frames::chherbolat_as_slice(frame, out)
}
