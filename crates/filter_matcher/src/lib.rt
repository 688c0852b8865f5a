// The matcher: whether a filter's registers accept a frame.
#![tactic(auto)]

pub mod shown;

ghost use Rattle.std.specs.Prelude.{◌≡◌, ◌/◌, ◌%◌, ◌^◌};
ghost use Rattle.filter_matcher.specs.Words.{Judges, is_dual, miss_of, agrees_of, compare_of, match_of, matching_said};

use crate::shown::Shown;
use refusals::Refusal;

// How a filter looks at a frame: all of it at once, or by two halves of which one is enough.
#[derive(Clone, Copy, Debug, PartialEq, Eq)]
pub enum Kind {
    Single,
    Dual,
}

impl TryFrom<u8> for Kind {
    type Error = Refusal;

    ghost try_from_gives = { Judges };

    fn try_from(kind: u8) -> Result<Self, Refusal> {
        match kind {
            0 => Ok(Kind::Single),
            1 => Ok(Kind::Dual),
            _ => Err(Refusal::FilterKind(0)),
        }
    }
}

// A filter's two register words in one, the code's above the mask's.
fn both(code: u32, mask: u32) -> u64
    ensures { (result / 2 ^ 32 ≡ code) × (result % 2 ^ 32 ≡ mask) }
{
    (code as u64) * 0x1_0000_0000 + (mask as u64)
}

// Where a named position is compared and the code differs from the word.
fn miss(registers: u64, word: u32, named: u32) -> u64
    ensures { result ≡ miss_of (registers / 2 ^ 32) (registers % 2 ^ 32) word named }
{
    ((registers >> 32) ^ (word as u64)) & !registers & (named as u64)
}

// A filter: its kind, and its registers as two words.
#[derive(Clone, Copy, Debug, PartialEq, Eq)]
pub struct Filter {
    pub kind: Kind,
    pub code: u32,
    pub mask: u32,
}

impl Filter {
    // Whether it accepts a frame that shows this.
    #[tactic(auto, unfolding(crate::specs::Words::agrees_of))]
    pub fn accepts(self, shown: Shown) -> bool
        ensures { result ≡ agrees_of (is_dual self.kind) self.code self.mask shown }
    {
        let registers = both(self.code, self.mask);
        match self.kind {
            Kind::Single => miss(registers, shown.single, shown.named) == 0,
            Kind::Dual => {
                miss(registers, shown.dual, shown.first) == 0
                    || miss(registers, shown.dual, shown.second) == 0
            }
        }
    }
}

// A filter's code and mask register words against what a frame shows.
pub fn compare(kind: u8, code: u32, mask: u32, shown: Shown) -> Result<bool, Refusal>
    ensures { matching_said result ≡ compare_of kind code mask shown }
{
    let kind = Kind::try_from(kind)?;
    Ok(Filter { kind, code, mask }.accepts(shown))
}

// The kind is judged first, and each kind looks at the frame by itself, so that only the words that it compares are made.
pub fn accepts(kind: u8, registers: &[u8; 8], frame: &[u8; 13]) -> Result<bool, Refusal>
    ensures { matching_said result ≡ match_of kind registers.now frame.now }
{
    let kind = Kind::try_from(kind)?;
    let code = octets::word(registers[0], registers[1], registers[2], registers[3]);
    let mask = octets::word(registers[4], registers[5], registers[6], registers[7]);
    let filter = Filter { kind, code, mask };
    match kind {
        Kind::Single => Ok(filter.accepts(shown::show(frame))),
        Kind::Dual => Ok(filter.accepts(shown::show(frame))),
    }
}
