// The refusals of the outline and of its change requests, in the order in which they were added, each with what it carries.
#![tactic(auto)]

ghost use Rattle.std.specs.Prelude.{◌≡◌};
ghost use Rattle.refusals.specs.Table.{number_of, carried_of, in_one};

#[derive(Clone, Copy, Debug, PartialEq, Eq)]
pub enum Refusal {
    // An identifier above its limit.
    IdentifierAboveLimit,
    // Data longer than 8, or a remote frame with data: the length modulo 256.
    InvalidDataLength(u8),
    // A length code above 15, or one that does not fit the data: the code modulo 256.
    NonCompliantDlc(u8),
    // A pattern of another length than its field: the field, from 0.
    PatternLength(usize),
    // A pattern byte other than `0`, `1` and `x`: its field, its place there, both from 0, and the byte.
    PatternByte(u8, u8, u8),
    // A lent output that is too short: the length that is needed.
    OutputTooShort(usize),
    // A filter kind that is neither single nor dual: its offset, its entry, or 0.
    FilterKind(usize),
    // A start while a drain runs.
    DrainRuns,
    // A step while no drain runs.
    NoDrainRuns,
    // A box or a queue whose state breaks its rules.
    BrokenState,
    // A file that ends before a field is complete: that field's offset.
    FileEnds(usize),
    // A count above its limit: its offset, or its section.
    CountAboveLimit(usize),
    // Bytes after the last frame: the offset of the first.
    BytesAfterEnd(usize),
    // Entries that are not whole, or an exported slice of the wrong length: the section, or the argument from 0.
    WrongLength(usize),
    // A list with no entry.
    EmptyList,
    // An identifier above its limit in a list: its index.
    EntryAboveLimit(usize),
}

impl Refusal {
    // Its number in the outline.
    pub fn number(self) -> u32
        ensures { result ≡ number_of self }
    {
        match self {
            Refusal::IdentifierAboveLimit => 1,
            Refusal::InvalidDataLength(_) => 2,
            Refusal::NonCompliantDlc(_) => 3,
            Refusal::PatternLength(_) => 4,
            Refusal::PatternByte(_, _, _) => 5,
            Refusal::OutputTooShort(_) => 6,
            Refusal::FilterKind(_) => 7,
            Refusal::DrainRuns => 8,
            Refusal::NoDrainRuns => 9,
            Refusal::BrokenState => 10,
            Refusal::FileEnds(_) => 11,
            Refusal::CountAboveLimit(_) => 12,
            Refusal::BytesAfterEnd(_) => 13,
            Refusal::WrongLength(_) => 14,
            Refusal::EmptyList => 15,
            Refusal::EntryAboveLimit(_) => 1,
        }
    }

    // The numbers that it carries, in one.
    pub fn carried(self) -> u64
        ensures { result ≡ in_one (carried_of self) }
    {
        match self {
            Refusal::IdentifierAboveLimit => 0,
            Refusal::InvalidDataLength(length) => length as u64,
            Refusal::NonCompliantDlc(code) => code as u64,
            Refusal::PatternLength(field) => field as u64,
            Refusal::PatternByte(field, place, byte) => {
                ((field as u64) * 256 + (place as u64)) * 256 + (byte as u64)
            }
            Refusal::OutputTooShort(needed) => needed as u64,
            Refusal::FilterKind(at) => at as u64,
            Refusal::DrainRuns => 0,
            Refusal::NoDrainRuns => 0,
            Refusal::BrokenState => 0,
            Refusal::FileEnds(offset) => offset as u64,
            Refusal::CountAboveLimit(at) => at as u64,
            Refusal::BytesAfterEnd(offset) => offset as u64,
            Refusal::WrongLength(at) => at as u64,
            Refusal::EmptyList => 0,
            Refusal::EntryAboveLimit(index) => index as u64,
        }
    }
}
