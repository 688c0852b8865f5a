// The controller's FIFO by value: a ring of entries, each whole or an overrun mark, and their weight.
#![tactic(auto)]

mod byte;

ghost use Rattle.std.specs.Prelude.{◌≡◌, ◌<◌, ◌≤◌};
ghost use Rattle.box_fifo.specs.Ring.{entry_limit, weight_of, sum_of, fifo_ok, mark_entry, empty_fifo, front_of, pushed, released, arrive_of, arrived_said};

pub const ENTRY_LIMIT: usize = 64;

pub const WEIGHT_LIMIT: usize = 64;

// A mark's bytes are zeros.
#[derive(Clone, Copy, Debug, PartialEq, Eq)]
pub struct Entry {
    pub mark: bool,
    pub bytes: [u8; 13],
}

#[derive(Clone, Copy, Debug, PartialEq, Eq)]
pub struct Fifo {
    pub entries: [Entry; ENTRY_LIMIT],
    pub head: usize,
    pub count: usize,
    pub weight: usize,
}

#[derive(Clone, Copy, Debug, PartialEq, Eq)]
pub enum Arrival {
    Whole,
    Mark,
    NotRecorded,
}

#[derive(Clone, Copy, Debug, PartialEq, Eq)]
pub struct Arrived {
    pub answer: Arrival,
    pub state: Fifo,
}

#[tactic(auto, using(crate::proofs::Bounds::bounds), unfolding(crate::specs::Ring::weight_of))]
fn weight_of(entry: Entry) -> usize
    ensures { (result ≡ weight_of entry) × (result ≤ 13) }
{
    if entry.mark {
        return 0;
    }
    let length = frame_info::data_length(&entry.bytes);
    if frame_info::is_extended_format(&entry.bytes) {
        return 5 + length;
    }
    3 + length
}

#[tactic(auto, unfolding(crate::specs::Ring::sum_to))]
fn sum_weights(fifo: Fifo) -> usize
    requires { (fifo.head < entry_limit) × (fifo.count ≤ entry_limit) }
    ensures { result ≡ sum_of fifo }
{
    let mut sum: usize = 0;
    for i in 0..fifo.count {
        sum += weight_of(fifo.entries[(fifo.head + i) % ENTRY_LIMIT]);
    }
    sum
}

fn mark_entry() -> Entry
    ensures { result ≡ mark_entry }
{
    Entry {
        mark: true,
        bytes: [0; 13],
    }
}

// An entry is stored last.
fn push(fifo: Fifo, entry: Entry, weight: usize) -> Fifo
    requires { (fifo.count < entry_limit) × (weight ≡ (pushed fifo entry).weight) }
    ensures { result ≡ pushed fifo entry }
{
    let mut more = fifo;
    let last = (fifo.head % ENTRY_LIMIT + fifo.count) % ENTRY_LIMIT;
    more.entries[last] = entry;
    more.count = fifo.count + 1;
    more.weight = weight;
    more
}

impl Fifo {
    pub fn fresh() -> Fifo
        ensures { result ≡ empty_fifo }
    {
        Fifo {
            entries: [mark_entry(); ENTRY_LIMIT],
            head: 0,
            count: 0,
            weight: 0,
        }
    }

    // Whether the FIFO keeps its rules.
    #[tactic(auto, unfolding(crate::specs::Ring::fifo_ok))]
    pub fn valid(self) -> bool
        ensures { result ≡ fifo_ok self }
    {
        self.head < ENTRY_LIMIT
            && self.count <= ENTRY_LIMIT
            && self.weight <= WEIGHT_LIMIT
            && sum_weights(self) == self.weight
    }

    #[tactic(auto, unfolding(crate::specs::Ring::arrive_of, crate::specs::Ring::weight_of))]
    pub fn arrive(self, frame: [u8; 13]) -> Arrived
        ensures { arrived_said result ≡ arrive_of self frame }
    {
        if self.count >= ENTRY_LIMIT {
            return Arrived {
                answer: Arrival::NotRecorded,
                state: self,
            };
        }
        let entry = Entry {
            mark: false,
            bytes: frame,
        };
        let more = weight_of(entry);
        if self.weight <= WEIGHT_LIMIT - more {
            return Arrived {
                answer: Arrival::Whole,
                state: push(self, entry, self.weight + more),
            };
        }
        Arrived {
            answer: Arrival::Mark,
            state: push(self, mark_entry(), self.weight),
        }
    }

    // The entry that the ring has at its head.
    pub fn front(self) -> Entry
        ensures { result ≡ front_of self }
    {
        self.entries[self.head % ENTRY_LIMIT]
    }

    // The front leaves; an empty FIFO stays as it is.
    pub fn release(self) -> Fifo
        ensures { result ≡ released self }
    {
        if self.count == 0 {
            return self;
        }
        let mut rest = self;
        rest.head = (self.head % ENTRY_LIMIT + 1) % ENTRY_LIMIT;
        rest.count = self.count - 1;
        rest.weight = self.weight.saturating_sub(weight_of(self.front()));
        rest
    }
}
