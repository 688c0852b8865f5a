// The report on a frame file for other languages: the file's bytes in, the text out (docs/ABI.md).
#![tactic(auto)]

ghost use Rattle.std.specs.Prelude.{◌≡◌};
ghost use Rattle.laws.specs.Laid.{laying, written};
ghost use Rattle.abi_answers.specs.Answers.{answer_of};
ghost use Rattle.file_report.specs.Text.{text_of};

use abi_answers::Answer;

#[unsafe(no_mangle)]
pub extern "C" fn chherbolat_report(file: &[u8], out: &mut [u8]) -> Answer
    ensures value { result ≡ answer_of (laying (text_of file.now) out.old) }
    ensures out_after { out.new ≡ written (laying (text_of file.now) out.old) (text_of file.now) out.old }
{
    let laid = file_report::report(file, out);
    abi_answers::answered(laid.map(|length| length as u64))
}
