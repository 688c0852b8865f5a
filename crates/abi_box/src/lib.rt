// The box for other languages: a script of calls in, their answers as bytes out (docs/ABI.md).
#![tactic(auto)]

ghost use Rattle.std.specs.Prelude.{◌≡◌, length};
ghost use Rattle.laws.specs.Laid.{written};
ghost use Rattle.abi_answers.specs.Answers.{answer_of};
ghost use Rattle.box_script.specs.Run.{run_of, answers_to};

use abi_answers::Answer;

#[unsafe(no_mangle)]
pub extern "C" fn chherbolat_box_script(script: &[u8], out: &mut [u8]) -> Answer
    ensures value { result ≡ answer_of (run_of script.now (length out.old)) }
    ensures out_after { out.new ≡ written (run_of script.now (length out.old)) (answers_to script.now) out.old }
{
    abi_answers::answered(box_script::run_script(script, out).map(|calls| calls as u64))
}
