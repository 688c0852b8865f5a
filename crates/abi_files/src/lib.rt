// The frame file's reader and writer for other languages (docs/ABI.md).
#![tactic(auto)]

ghost use Rattle.std.specs.Prelude.{◌≡◌, ◌<◌, length};
ghost use Rattle.abi_answers.specs.Answers.{answer_of};
ghost use Rattle.file_reading.specs.Reader.{read_of};
ghost use Rattle.file_writing.specs.Writer.{write_of, leaves};
ghost use Rattle.abi_files.specs.Numbers.{found_number, found_said};

use abi_answers::Answer;
use file_reading::Sections;

// Both counts and each section's start, in 16 bits each.
fn found_number(sections: Sections) -> u64
    requires { (sections.filters < 65536)
        × (sections.frames < 65536)
        × (sections.filters_start < 65536)
        × (sections.frames_start < 65536) }
    ensures { result ≡ found_number sections }
{
    let counts = sections.frames as u64 * 0x1_0000 + sections.filters as u64;
    let starts = sections.frames_start as u64 * 0x1_0000 + sections.filters_start as u64;
    starts * 0x1_0000_0000 + counts
}

#[unsafe(no_mangle)]
pub extern "C" fn chherbolat_read_file(file: &[u8]) -> Answer
    ensures { result ≡ answer_of (found_said (read_of file.now)) }
{
    match file_reading::read_file(file) {
        Ok(sections) => abi_answers::given(found_number(sections)),
        Err(refusal) => abi_answers::refused(refusal),
    }
}

#[unsafe(no_mangle)]
pub extern "C" fn chherbolat_write_file(filters: &[u8], frames: &[u8], out: &mut [u8]) -> Answer
    ensures value { result ≡ answer_of (write_of filters.now frames.now (length out.old)) }
    ensures out_after { out.new ≡ leaves filters.now frames.now out.old }
{
    let written = file_writing::write_file(filters, frames, out);
    abi_answers::answered(written.map(|length| length as u64))
}
