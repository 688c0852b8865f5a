// The next step as the byte that a script has for it.
ghost use Rattle.std.specs.Prelude.{◌≡◌};
ghost use Rattle.box_state.specs.Byte.{phase_byte, phase_read};

use crate::Phase;
use refusals::Refusal;

impl From<Phase> for u8 {
    ghost from_gives = { λ phase byte. byte ≡ phase_byte phase };

    fn from(phase: Phase) -> u8 {
        match phase {
            Phase::Idle => 0,
            Phase::Notice => 1,
            Phase::Look => 2,
            Phase::Miss => 3,
            Phase::Copy => 4,
            Phase::Release => 5,
            Phase::Offer => 6,
            Phase::Finish => 7,
        }
    }
}

impl TryFrom<u8> for Phase {
    type Error = Refusal;

    ghost try_from_gives = { λ byte read. read ≡ phase_read byte };

    #[tactic(auto, unfolding(crate::specs::Byte::phase_of))]
    fn try_from(byte: u8) -> Result<Phase, Refusal> {
        match byte {
            0 => Ok(Phase::Idle),
            1 => Ok(Phase::Notice),
            2 => Ok(Phase::Look),
            3 => Ok(Phase::Miss),
            4 => Ok(Phase::Copy),
            5 => Ok(Phase::Release),
            6 => Ok(Phase::Offer),
            7 => Ok(Phase::Finish),
            _ => Err(Refusal::BrokenState),
        }
    }
}
