// The box by value: its rules, arrivals and takes.
#![tactic(auto)]

mod byte;

ghost use Rattle.std.specs.Prelude.{◌≡◌};
ghost use Rattle.box_state.specs.Rules.{record_of, front_ready, copy_ready, release_ready, phase_ok, box_ok};
ghost use Rattle.box_state.specs.Calls.{fresh_box, arrived_said, arrive_of, taken_said, take_of};

use box_fifo::{Arrival, Entry, Fifo};
use box_queue::Queue;
use box_records::{Record, RecordError, RecordKind};
use box_words::Words;
use refusals::Refusal;

// The step that comes next. `Idle`: no drain runs.
#[derive(Clone, Copy, Debug, PartialEq, Eq)]
pub enum Phase {
    Idle,
    Notice,
    Look,
    Miss,
    Copy,
    Release,
    Offer,
    Finish,
}

#[derive(Clone, Copy, Debug, PartialEq, Eq)]
pub struct ReceiveBox {
    pub fifo: Fifo,
    pub queue: Queue,
    pub phase: Phase,
    pub held: Record,
    pub words: Words,
}

#[derive(Clone, Copy, Debug, PartialEq, Eq)]
pub struct Arrived {
    pub answer: Result<Arrival, Refusal>,
    pub state: ReceiveBox,
}

#[derive(Clone, Copy, Debug, PartialEq, Eq)]
pub struct Taken {
    pub answer: Result<Option<Record>, Refusal>,
    pub state: ReceiveBox,
}

// The record that an entry becomes.
pub fn record_of(entry: Entry) -> Record
    ensures { result ≡ record_of entry }
{
    if entry.mark {
        return Record {
            kind: RecordKind::Error(RecordError::Overrun),
            bytes: [0; 13],
        };
    }
    let bytes = entry.bytes;
    Record {
        kind: RecordKind::Frame,
        bytes,
    }
}

impl ReceiveBox {
    // The state rules.
    #[tactic(auto, unfolding(crate::specs::Rules::box_ok))]
    pub fn valid(self) -> bool
        ensures { result ≡ box_ok self }
    {
        self.fifo.valid() && self.queue.valid() && self.phase_ok()
    }

    // Between look and release the FIFO is not empty.
    #[tactic(auto, unfolding(crate::specs::Rules::front_ready))]
    fn front_ready(self) -> bool
        ensures { result ≡ front_ready self }
    {
        self.words.receive_due() && 0 < self.fifo.count
    }

    // At copy the front is whole.
    #[tactic(auto, unfolding(crate::specs::Rules::copy_ready))]
    fn copy_ready(self) -> bool
        ensures { result ≡ copy_ready self }
    {
        self.front_ready() && !self.fifo.front().mark
    }

    // At release the held record is the front's.
    #[tactic(auto, unfolding(crate::specs::Rules::release_ready))]
    fn release_ready(self) -> bool
        ensures { result ≡ release_ready self }
    {
        self.front_ready() && self.held.same(record_of(self.fifo.front()))
    }

    // The next step is one that the stored words allow.
    fn phase_ok(self) -> bool
        ensures { result ≡ phase_ok self.phase self }
    {
        match self.phase {
            Phase::Idle | Phase::Finish => true,
            Phase::Notice => self.words.notice_due(),
            Phase::Look | Phase::Offer => self.words.receive_due(),
            Phase::Miss => self.front_ready(),
            Phase::Copy => self.copy_ready(),
            Phase::Release => self.release_ready(),
        }
    }

    // No entries, no records, no drain.
    pub fn fresh() -> ReceiveBox
        ensures { result ≡ fresh_box }
    {
        ReceiveBox {
            fifo: Fifo::fresh(),
            queue: Queue::fresh(),
            phase: Phase::Idle,
            held: Record::blank(),
            words: Words {
                interrupt: 0,
                enable: 0,
                status: 0,
            },
        }
    }

    // A frame arrives at the controller.
    #[tactic(auto, unfolding(crate::specs::Calls::arrive_of))]
    pub fn arrive(self, frame: [u8; 13]) -> Arrived
        ensures { arrived_said result ≡ arrive_of self frame }
    {
        if !self.valid() {
            return Arrived {
                answer: Err(Refusal::BrokenState),
                state: self,
            };
        }
        let after = self.fifo.arrive(frame);
        Arrived {
            answer: Ok(after.answer),
            state: ReceiveBox {
                fifo: after.state,
                ..self
            },
        }
    }

    // The program takes the oldest record.
    #[tactic(auto, unfolding(crate::specs::Calls::take_of))]
    pub fn take(self) -> Taken
        ensures { taken_said result ≡ take_of self }
    {
        if !self.valid() {
            return Taken {
                answer: Err(Refusal::BrokenState),
                state: self,
            };
        }
        let rest = self.queue.take();
        Taken {
            answer: rest.answer,
            state: ReceiveBox {
                queue: rest.state,
                ..self
            },
        }
    }
}
