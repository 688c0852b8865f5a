// A drain of the box, by value: its start, and the step that comes next.
#![tactic(auto)]

mod answers;
mod byte;
mod offers;
mod steps;

ghost use Rattle.std.specs.Prelude.{◌≡◌};
ghost use Rattle.box_drain.specs.Answers.{stepped_said};
ghost use Rattle.box_drain.specs.Step.{first_phase, step_of};
ghost use Rattle.box_drain.specs.Start.{started_said, start_of};

use box_records::Record;
use box_state::{Phase, ReceiveBox};
use box_words::{Finished, Words};
use refusals::Refusal;

#[derive(Clone, Copy, Debug, PartialEq, Eq)]
pub enum Command {
    Nothing,
    Abort,
    Release,
}

// What a step came to: no more, a record that was lost, or the drain's end.
#[derive(Clone, Copy, Debug, PartialEq, Eq)]
pub enum Outcome {
    Done,
    Lost(Record),
    Finished(Finished),
}

#[derive(Clone, Copy, Debug, PartialEq, Eq)]
pub struct StepAnswer {
    pub command: Command,
    pub outcome: Outcome,
}

#[derive(Clone, Copy, Debug, PartialEq, Eq)]
pub struct Stepped {
    pub answer: Result<StepAnswer, Refusal>,
    pub state: ReceiveBox,
}

#[derive(Clone, Copy, Debug, PartialEq, Eq)]
pub struct Started {
    pub answer: Result<(), Refusal>,
    pub state: ReceiveBox,
}

#[tactic(auto, unfolding(crate::specs::Step::first_phase))]
fn first_phase(words: Words) -> Phase
    ensures { result ≡ first_phase words }
{
    if words.notice_due() {
        return Phase::Notice;
    }
    offers::after_notice(words)
}

// A drain starts: its words are stored, and no step is made.
#[tactic(auto, unfolding(crate::specs::Start::start_of))]
pub fn start(state: ReceiveBox, words: Words) -> Started
    ensures { started_said result ≡ start_of state words }
{
    if !state.valid() {
        return Started {
            answer: Err(Refusal::BrokenState),
            state,
        };
    }
    if state.phase != Phase::Idle {
        return Started {
            answer: Err(Refusal::DrainRuns),
            state,
        };
    }
    Started {
        answer: Ok(()),
        state: ReceiveBox {
            phase: first_phase(words),
            words,
            ..state
        },
    }
}

// The next step of the drain that runs.
#[tactic(auto, unfolding(crate::specs::Step::step_of))]
pub fn step(state: ReceiveBox) -> Stepped
    ensures { stepped_said result ≡ step_of state }
{
    if !state.valid() {
        return Stepped::refused(Refusal::BrokenState, state);
    }
    match state.phase {
        Phase::Idle => Stepped::refused(Refusal::NoDrainRuns, state),
        Phase::Notice => offers::notice_step(state),
        Phase::Look => steps::look_step(state),
        Phase::Miss => steps::miss_step(state),
        Phase::Copy => steps::copy_step(state),
        Phase::Release => steps::release_step(state),
        Phase::Offer => offers::offer_step(state),
        Phase::Finish => steps::finish_step(state),
    }
}
