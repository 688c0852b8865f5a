// The matcher: a kind, a slice of eight registers and a slice of 13 frame bytes.
ghost use Rattle.std.specs.Prelude.{◌≡◌};
ghost use Rattle.filter_matcher.specs.Words.{match_of};
ghost use Rattle.abi_answers.specs.Answers.{answer_of, sized, flag_said};

use abi_answers::Answer;

#[unsafe(no_mangle)]
pub extern "C" fn chherbolat_matcher_accepts(kind: u8, registers: &[u8], frame: &[u8]) -> Answer
    ensures { result ≡ answer_of (sized 8 1 registers.now (sized 13 2 frame.now (flag_said (match_of kind registers.now frame.now)))) }
{
    abi_matcher::chherbolat_matcher_accepts(kind, registers, frame)
}
