// The frame file's reader and writer for other languages (docs/ABI.md).
ghost use Rattle.std.specs.Prelude.{◌≡◌, length};
ghost use Rattle.abi_answers.specs.Answers.{answer_of};
ghost use Rattle.file_reading.specs.Reader.{read_of};
ghost use Rattle.file_writing.specs.Writer.{write_of, leaves};
ghost use Rattle.abi_files.specs.Numbers.{found_said};

use abi_answers::Answer;

#[unsafe(no_mangle)]
pub extern "C" fn chherbolat_read_file(file: &[u8]) -> Answer
    ensures { result ≡ answer_of (found_said (read_of file.now)) }
{
    abi_files::chherbolat_read_file(file)
}

#[unsafe(no_mangle)]
pub extern "C" fn chherbolat_write_file(filters: &[u8], frames: &[u8], out: &mut [u8]) -> Answer
    ensures value { result ≡ answer_of (write_of filters.now frames.now (length out.old)) }
    ensures out_after { out.new ≡ leaves filters.now frames.now out.old }
{
    abi_files::chherbolat_write_file(filters, frames, out)
}
