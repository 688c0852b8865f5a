// The receive queue by value: a ring of records, of which the oldest is taken first.
#![tactic(auto)]

ghost use Rattle.std.specs.Prelude.{◌≡◌};
ghost use Rattle.box_queue.specs.Ring.{queue_limit, empty_queue, queue_ok, offer_of, offered_said, take_of, taken_said};

use box_records::Record;
use refusals::Refusal;

// The places of the queue.
pub const QUEUE_LIMIT: usize = 32;

#[derive(Clone, Copy, Debug, PartialEq, Eq)]
pub struct Queue {
    pub places: [Record; QUEUE_LIMIT],
    pub head: usize,
    pub count: usize,
}

#[derive(Clone, Copy, Debug, PartialEq, Eq)]
pub enum Offering {
    Stored,
    Lost,
}

#[derive(Clone, Copy, Debug, PartialEq, Eq)]
pub struct Offered {
    pub answer: Result<Offering, Refusal>,
    pub state: Queue,
}

// The oldest record, or that there is none.
#[derive(Clone, Copy, Debug, PartialEq, Eq)]
pub struct Taken {
    pub answer: Result<Option<Record>, Refusal>,
    pub state: Queue,
}

impl Queue {
    pub fn fresh() -> Queue
        ensures { result ≡ empty_queue queue_limit }
    {
        Queue {
            places: [Record::blank(); QUEUE_LIMIT],
            head: 0,
            count: 0,
        }
    }

    // Whether the queue keeps its rules.
    #[tactic(auto, unfolding(crate::specs::Ring::queue_ok))]
    pub fn valid(self) -> bool
        ensures { result ≡ queue_ok queue_limit self }
    {
        self.head < QUEUE_LIMIT && self.count <= QUEUE_LIMIT
    }

    #[tactic(auto, unfolding(crate::specs::Ring::queue_ok, crate::specs::Ring::offer_of))]
    pub fn offer(self, offered: Record) -> Offered
        ensures { offered_said result ≡ offer_of queue_limit self offered }
    {
        if !self.valid() {
            return Offered {
                answer: Err(Refusal::BrokenState),
                state: self,
            };
        }
        if self.count < QUEUE_LIMIT {
            let mut queue = self;
            queue.places[(self.head + self.count) % QUEUE_LIMIT] = offered;
            queue.count = self.count + 1;
            return Offered {
                answer: Ok(Offering::Stored),
                state: queue,
            };
        }
        Offered {
            answer: Ok(Offering::Lost),
            state: self,
        }
    }

    #[tactic(auto, unfolding(crate::specs::Ring::queue_ok, crate::specs::Ring::take_of))]
    pub fn take(self) -> Taken
        ensures { taken_said result ≡ take_of queue_limit self }
    {
        if !self.valid() {
            return Taken {
                answer: Err(Refusal::BrokenState),
                state: self,
            };
        }
        if self.count == 0 {
            return Taken {
                answer: Ok(None),
                state: self,
            };
        }
        let mut rest = self;
        rest.head = (self.head + 1) % QUEUE_LIMIT;
        rest.count = self.count - 1;
        Taken {
            answer: Ok(Some(self.places[self.head])),
            state: rest,
        }
    }
}
