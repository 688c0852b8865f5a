// A record of the receive queue: a frame or an error; the blank one, and whether two are the same.
#![tactic(auto)]

mod byte;

ghost use Rattle.std.specs.Prelude.{◌≡◌};
ghost use Rattle.box_records.specs.Blank.{blank};
ghost use Rattle.box_records.specs.Same.{same_record};

#[derive(Clone, Copy, Debug, PartialEq, Eq)]
pub enum RecordError {
    Overrun,
    BusOff,
}

#[derive(Clone, Copy, Debug, PartialEq, Eq)]
pub enum RecordKind {
    Frame,
    Error(RecordError),
}

// The frame's bytes stand beside the enum, zeros for an error.
#[derive(Clone, Copy, Debug, PartialEq, Eq)]
pub struct Record {
    pub kind: RecordKind,
    pub bytes: [u8; 13],
}

impl Record {
    // What stands where no record is told.
    pub fn blank() -> Record
        ensures { result ≡ blank }
    {
        Record {
            kind: RecordKind::Frame,
            bytes: [0; 13],
        }
    }

    pub fn same(self, other: Record) -> bool
        ensures { result ≡ same_record self other }
    {
        self == other
    }
}
