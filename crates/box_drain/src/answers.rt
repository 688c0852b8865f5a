// What a step answers, beside the box after it.
ghost use Rattle.std.specs.Prelude.{◌≡◌};
ghost use Rattle.laws.specs.Said.{gives};
ghost use Rattle.box_drain.specs.Answers.{outcome_said, lost_in, stepped_said, quietly, refused_step};

use crate::{Command, Outcome, StepAnswer, Stepped};
use box_state::ReceiveBox;
use refusals::Refusal;

impl Stepped {
    pub(crate) fn told(command: Command, outcome: Outcome, state: ReceiveBox) -> Stepped
        ensures { stepped_said result ≡ ((gives (outcome_said outcome), command, lost_in outcome), state) }
    {
        Stepped {
            answer: Ok(StepAnswer { command, outcome }),
            state,
        }
    }

    // A step that loses nothing and does not end the drain.
    pub(crate) fn quiet(command: Command, state: ReceiveBox) -> Stepped
        ensures { stepped_said result ≡ quietly command state }
    {
        Stepped::told(command, Outcome::Done, state)
    }

    pub(crate) fn refused(refusal: Refusal, state: ReceiveBox) -> Stepped
        ensures { stepped_said result ≡ refused_step refusal state }
    {
        Stepped {
            answer: Err(refusal),
            state,
        }
    }
}
