// A filter from a list: the single filter that lets all identifiers of a list through, and as little else as possible.
#![tactic(auto)]

ghost use Rattle.std.specs.Prelude.{◌≡◌, ◌∷◌, ℕ, ◌^◌, ◌<◌, ◌≤◌, length};
ghost use Rattle.laws.specs.Laid.{laid_first};
ghost use Rattle.filter_registers.specs.Registers.{mask_in};
ghost use Rattle.filter_list.specs.Pattern.{character_at, character_by, down_from};
ghost use Rattle.filter_list.specs.Answers.{above_in, registers_for, through_of, listed_of, leaves, listed_said};

use filter_types::{SingleExtendedFilter, SingleStandardFilter};
use refusals::Refusal;

// How many identifiers get through, and the registers.
#[derive(Clone, Copy, Debug, PartialEq, Eq)]
pub struct Listed {
    pub through: u32,
    pub registers: [u8; 8],
}

// The index of the first entry above a limit.
fn above(list: &[u32], limit: u32) -> Option<usize>
    ensures { result ≡ above_in limit list.now }
{
    list.iter().position(|entry| *entry > limit)
}

// The bits that all entries of a list have, and the positions where some differ.
#[derive(Clone, Copy, Debug, PartialEq, Eq)]
struct Agreement {
    agreed: u32,
    differing: u32,
}

impl Agreement {
    // Of a list with this first entry.
    fn of(first: u32, rest: &[u32]) -> Agreement
        ensures { (k : ℕ) → character_by result.agreed result.differing k ≡ character_at (first ∷ rest.now) k }
    {
        let mut agreed = first;
        let mut differing = 0;
        for &entry in rest {
            agreed &= entry;
            differing |= first ^ entry;
        }
        Agreement { agreed, differing }
    }

    // The character at a position: a digit where the entries agree.
    fn character(self, position: u32) -> u8
        requires { position < 32 }
        ensures { result ≡ character_by self.agreed self.differing position }
    {
        if (self.differing >> position) % 2 == 1 {
            return b'x';
        }
        b'0' + ((self.agreed >> position) % 2) as u8
    }

    // The characters of these positions into the front of the buffer, the highest first.
    fn write(self, width: usize, pattern: &mut [u8])
        requires { (width ≤ 32) × (width ≤ length pattern.old) }
        ensures { pattern.new ≡ laid_first (down_from width (character_by self.agreed self.differing)) pattern.old }
    {
        for i in 0..width {
            pattern[i] = self.character((width - 1 - i) as u32);
        }
    }
}

// A pattern of the identifier's width, all of it `0`, `1` and `x`, is never refused.
fn compile(extended: bool, pattern: &[u8]) -> [u8; 8]
    ensures { result ≡ registers_for extended pattern.now }
{
    let compiled = if extended {
        SingleExtendedFilter::new(pattern, b"x")
    } else {
        SingleStandardFilter::new(pattern, b"x", b"xxxxxxxx", b"xxxxxxxx")
    };
    compiled.unwrap_or([0; 8])
}

fn mask_word(registers: &[u8; 8]) -> u32
    ensures { (result ≡ mask_in registers.now) × (result < 2 ^ 32) }
{
    octets::word(registers[4], registers[5], registers[6], registers[7])
}

// The identifier has the highest positions: 31 to 21, or 31 to 3.
fn through(extended: bool, registers: &[u8; 8]) -> u32
    ensures { result ≡ through_of extended registers.now }
{
    let mask = mask_word(registers);
    if extended {
        return 1 << u32::count_ones(mask >> 3);
    }
    1 << u32::count_ones(mask >> 21)
}

pub fn from_list(extended: bool, list: &[u32], pattern: &mut [u8]) -> Result<Listed, Refusal>
    ensures result_value { listed_said result ≡ listed_of extended list.now (length pattern.old) }
    ensures pattern_after { pattern.new ≡ leaves extended list.now pattern.old }
{
    let Some((&first, rest)) = list.split_first() else {
        return Err(Refusal::EmptyList);
    };
    let needed = identifiers::width(extended);
    if let Some(at) = above(list, identifiers::limit(extended)) {
        return Err(Refusal::EntryAboveLimit(at));
    }
    if pattern.len() < needed {
        return Err(Refusal::OutputTooShort(needed));
    }
    Agreement::of(first, rest).write(needed, pattern);
    let registers = compile(extended, &pattern[..needed]);
    Ok(Listed {
        through: through(extended, &registers),
        registers,
    })
}
