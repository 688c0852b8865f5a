// The box lent by its caller: each call makes the call by value, and stores the box that comes of it.
#![tactic(auto)]

ghost use Rattle.box_lent.specs.Calls.{arrive_lent, take_lent, start_lent, step_lent};

use box_drain::StepAnswer;
use box_fifo::Arrival;
use box_records::Record;
use box_state::ReceiveBox;
use box_words::Words;
use refusals::Refusal;

// A frame arrives at the controller.
pub fn arrive(state: &mut ReceiveBox, frame: [u8; 13]) -> Result<Arrival, Refusal>
    ensures { arrive_lent state.old frame result state.new }
{
    let arrived = (*state).arrive(frame);
    *state = arrived.state;
    arrived.answer
}

// The program takes the oldest record.
pub fn take(state: &mut ReceiveBox) -> Result<Option<Record>, Refusal>
    ensures { take_lent state.old result state.new }
{
    let taken = (*state).take();
    *state = taken.state;
    taken.answer
}

// A drain starts: its words are stored, and no step is made.
pub fn start(state: &mut ReceiveBox, words: Words) -> Result<(), Refusal>
    ensures { start_lent state.old words result state.new }
{
    let started = box_drain::start(*state, words);
    *state = started.state;
    started.answer
}

// The next step of the drain that runs.
pub fn step(state: &mut ReceiveBox) -> Result<StepAnswer, Refusal>
    ensures { step_lent state.old result state.new }
{
    let stepped = box_drain::step(*state);
    *state = stepped.state;
    stepped.answer
}
