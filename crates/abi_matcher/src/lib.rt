// The matcher: a kind, a slice of eight registers and a slice of 13 frame bytes.
#![tactic(auto)]

ghost use Rattle.std.specs.Prelude.{◌≡◌};
ghost use Rattle.filter_matcher.specs.Words.{match_of};
ghost use Rattle.abi_answers.specs.Answers.{answer_of, sized, flag_said};

use abi_answers::Answer;

#[tactic(auto, unfolding(abi_answers::specs::Answers::sized))]
#[unsafe(no_mangle)]
pub extern "C" fn chherbolat_matcher_accepts(kind: u8, registers: &[u8], frame: &[u8]) -> Answer
    ensures { result ≡ answer_of (sized 8 1 registers.now (sized 13 2 frame.now (flag_said (match_of kind registers.now frame.now)))) }
{
    let Ok(registers) = abi_answers::sized(registers, 1) else {
        return abi_answers::wrong_length(1);
    };
    let Ok(frame) = abi_answers::sized(frame, 2) else {
        return abi_answers::wrong_length(2);
    };
    match filter_matcher::accepts(kind, registers, frame) {
        Ok(accepted) => abi_answers::given_flag(accepted),
        Err(refusal) => abi_answers::refused(refusal),
    }
}
