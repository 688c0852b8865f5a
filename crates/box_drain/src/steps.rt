// The steps of a drain that read and free the FIFO, and its last, each on the whole box: which comes next is not judged here.
ghost use Rattle.std.specs.Prelude.{◌≡◌};
ghost use Rattle.box_drain.specs.Answers.{stepped_said};
ghost use Rattle.box_drain.specs.Step.{at_phase, holding, look_step, miss_step, copy_step, release_step, finish_step};

use crate::{Command, Outcome, Stepped};
use box_records::Record;
use box_state::{Phase, ReceiveBox};

fn at_phase(state: ReceiveBox, phase: Phase) -> ReceiveBox
    ensures { result ≡ at_phase state phase }
{
    ReceiveBox { phase, ..state }
}

#[tactic(auto, unfolding(crate::specs::Step::look_step))]
pub(crate) fn look_step(state: ReceiveBox) -> Stepped
    ensures { stepped_said result ≡ look_step state }
{
    if state.fifo.count == 0 {
        return Stepped::quiet(Command::Nothing, at_phase(state, Phase::Finish));
    }
    Stepped::quiet(Command::Nothing, at_phase(state, Phase::Miss))
}

// A record is held, and the front is released next.
fn holding(state: ReceiveBox, held: Record) -> ReceiveBox
    ensures { result ≡ holding state held }
{
    ReceiveBox {
        phase: Phase::Release,
        held,
        ..state
    }
}

#[tactic(auto, unfolding(crate::specs::Step::miss_step))]
pub(crate) fn miss_step(state: ReceiveBox) -> Stepped
    ensures { stepped_said result ≡ miss_step state }
{
    let front = state.fifo.front();
    if front.mark {
        let held = box_state::record_of(front);
        return Stepped::quiet(Command::Nothing, holding(state, held));
    }
    Stepped::quiet(Command::Nothing, at_phase(state, Phase::Copy))
}

#[tactic(auto, unfolding(crate::specs::Step::copy_step))]
pub(crate) fn copy_step(state: ReceiveBox) -> Stepped
    ensures { stepped_said result ≡ copy_step state }
{
    let copy = box_state::record_of(state.fifo.front());
    Stepped::quiet(Command::Nothing, holding(state, copy))
}

#[tactic(auto, unfolding(crate::specs::Step::release_step))]
pub(crate) fn release_step(state: ReceiveBox) -> Stepped
    ensures { stepped_said result ≡ release_step state }
{
    let next = ReceiveBox {
        fifo: state.fifo.release(),
        phase: Phase::Offer,
        ..state
    };
    Stepped::quiet(Command::Release, next)
}

#[tactic(auto, unfolding(crate::specs::Step::finish_step))]
pub(crate) fn finish_step(state: ReceiveBox) -> Stepped
    ensures { stepped_said result ≡ finish_step state }
{
    let finished = Outcome::Finished(state.words.finish());
    Stepped::told(Command::Nothing, finished, at_phase(state, Phase::Idle))
}
