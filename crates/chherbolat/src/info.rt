// What the information byte of a frame of 13 bytes says, for other languages: each field as an answer of two numbers (docs/ABI.md).
ghost use Rattle.std.specs.Prelude.{◌≡◌};
ghost use Rattle.laws.specs.Said.{gives};
ghost use Rattle.laws.specs.Row.{bit};
ghost use Rattle.frame_info.specs.Info.{extended_of, remote_of, own_of, code_of, data_length_of, data_offset_of};
ghost use Rattle.abi_answers.specs.Answers.{answer_of, whole};

use abi_answers::Answer;

#[unsafe(no_mangle)]
pub extern "C" fn chherbolat_is_extended_format(frame: &[u8]) -> Answer
    ensures { result ≡ answer_of (whole 0 frame.now (gives (bit (extended_of frame.now)))) }
{
    abi_frame_info::chherbolat_is_extended_format(frame)
}

#[unsafe(no_mangle)]
pub extern "C" fn chherbolat_is_remote_request(frame: &[u8]) -> Answer
    ensures { result ≡ answer_of (whole 0 frame.now (gives (bit (remote_of frame.now)))) }
{
    abi_frame_info::chherbolat_is_remote_request(frame)
}

#[unsafe(no_mangle)]
pub extern "C" fn chherbolat_is_self_reception(frame: &[u8]) -> Answer
    ensures { result ≡ answer_of (whole 0 frame.now (gives (bit (own_of frame.now)))) }
{
    abi_frame_info::chherbolat_is_self_reception(frame)
}

#[unsafe(no_mangle)]
pub extern "C" fn chherbolat_data_length_code(frame: &[u8]) -> Answer
    ensures { result ≡ answer_of (whole 0 frame.now (gives (code_of frame.now))) }
{
    abi_frame_info::chherbolat_data_length_code(frame)
}

#[unsafe(no_mangle)]
pub extern "C" fn chherbolat_data_length(frame: &[u8]) -> Answer
    ensures { result ≡ answer_of (whole 0 frame.now (gives (data_length_of frame.now))) }
{
    abi_frame_info::chherbolat_data_length(frame)
}

#[unsafe(no_mangle)]
pub extern "C" fn chherbolat_data_offset(frame: &[u8]) -> Answer
    ensures { result ≡ answer_of (whole 0 frame.now (gives (data_offset_of frame.now))) }
{
    abi_frame_info::chherbolat_data_offset(frame)
}
