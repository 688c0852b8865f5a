// The steps of a drain that offer a record to the queue, each on the whole box: which comes next is not judged here.
ghost use Rattle.std.specs.Prelude.{◌≡◌};
ghost use Rattle.box_state.specs.Rules.{bus_off};
ghost use Rattle.box_state.specs.Calls.{with_of};
ghost use Rattle.box_drain.specs.Answers.{stepped_said};
ghost use Rattle.box_drain.specs.Step.{offering, after_notice, notice_step, offer_step};

use crate::{Command, Outcome, Stepped};
use box_queue::{Offering, Queue};
use box_records::{Record, RecordError, RecordKind};
use box_state::{Phase, ReceiveBox};
use box_words::Words;

fn bus_off() -> Record
    ensures { result ≡ bus_off }
{
    Record {
        kind: RecordKind::Error(RecordError::BusOff),
        bytes: [0; 13],
    }
}

fn with_queue(state: ReceiveBox, queue: Queue, phase: Phase) -> ReceiveBox
    ensures { result ≡ with_of state state.fifo queue phase state.held }
{
    ReceiveBox {
        queue,
        phase,
        ..state
    }
}

// Offers a record to the queue, and goes on at one of two steps.
#[tactic(auto, unfolding(crate::specs::Step::offering))]
fn offer_record(
    state: ReceiveBox,
    offered: Record,
    command: Command,
    stored: Phase,
    lost: Phase,
) -> Stepped
    ensures { stepped_said result ≡ offering state offered command stored lost }
{
    let after = state.queue.offer(offered);
    match after.answer {
        Ok(Offering::Stored) => Stepped::quiet(command, with_queue(state, after.state, stored)),
        Ok(Offering::Lost) => Stepped::told(
            command,
            Outcome::Lost(offered),
            with_queue(state, after.state, lost),
        ),
        Err(refusal) => Stepped::refused(refusal, state),
    }
}

#[tactic(auto, unfolding(crate::specs::Step::after_notice))]
pub(crate) fn after_notice(words: Words) -> Phase
    ensures { result ≡ after_notice words }
{
    if words.receive_due() {
        return Phase::Look;
    }
    Phase::Finish
}

#[tactic(auto, unfolding(crate::specs::Step::notice_step))]
pub(crate) fn notice_step(state: ReceiveBox) -> Stepped
    ensures { stepped_said result ≡ notice_step state }
{
    let next = after_notice(state.words);
    offer_record(state, bus_off(), Command::Abort, next, next)
}

#[tactic(auto, unfolding(crate::specs::Step::offer_step))]
pub(crate) fn offer_step(state: ReceiveBox) -> Stepped
    ensures { stepped_said result ≡ offer_step state }
{
    let held = state.held;
    offer_record(state, held, Command::Nothing, Phase::Look, Phase::Finish)
}
