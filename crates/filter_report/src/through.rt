// The line of what a list's pattern lets through.
ghost use Rattle.std.specs.Prelude.{◌≡◌, List, ◌∷◌, ℕ, ◌+◌, ◌*◌, ◌^◌, ◌<◌, ◌≤◌, ◌++◌, length, get_or};
ghost use Rattle.filter_report.specs.Listed.{ids_text};
ghost use Rattle.filter_report.specs.Through.{members_of, occurs as Through·occurs, different as Through·different, not_listed, rest_text, through_text};

use crate::named::{self, NAMED_LIMIT};
use text::Page;

fn occurs(n: u32, list: &[u32]) -> bool
    ensures { result ≡ Through·occurs n list.now }
{
    list.contains(&n)
}

// How many different numbers a list has: each is counted where it does not occur again.
fn different(list: &[u32]) -> usize
    ensures { result ≡ Through·different list.now }
{
    let mut count = 0;
    let mut rest = list;
    while let Some((n, behind)) = rest.split_first() {
        if !occurs(*n, behind) {
            count += 1;
        }
        rest = behind;
    }
    count
}

// A number's bit at a pattern's first character; how many numbers the rest lets through; and which of them has the other bits.
#[derive(Clone, Copy, Debug, PartialEq, Eq)]
pub struct Halved {
    pub bit: u32,
    pub size: usize,
    pub k: usize,
}

// The k-th number of a pattern, by its first character and how many numbers it lets through.
fn halve(character: u8, size: usize, k: usize) -> Halved
    ensures { ((rest : List ℕ) → size ≡ length (members_of (character ∷ rest)) → k < size
        → (result.size ≡ length (members_of rest)) × (result.k < result.size) × (get_or (members_of (character ∷ rest)) k 0 ≡ result.bit * 2 ^ length rest + get_or (members_of rest) result.k 0))
        × (result.bit ≤ 1) }
{
    let half = size / 2;
    if character == b'0' {
        Halved { bit: 0, size, k }
    } else if character == b'1' {
        Halved { bit: 1, size, k }
    } else if k < half {
        Halved {
            bit: 0,
            size: half,
            k,
        }
    } else {
        Halved {
            bit: 1,
            size: half,
            k: k - half,
        }
    }
}

// A pattern, and how many numbers it lets through.
#[derive(Clone, Copy, Debug, PartialEq, Eq)]
pub struct Passed<'a> {
    pub pattern: &'a [u8],
    pub through: usize,
    ghost narrow: { length pattern.now ≤ 29 },
    ghost counted: { through ≡ length (members_of pattern.now) },
}

impl Passed<'_> {
    // The k-th of the numbers that the pattern lets through.
    fn member(&self, k: usize) -> u32
        requires { k < self.now.through }
        ensures { result ≡ get_or (members_of self.now.pattern.now) k 0 }
    {
        let mut n: u32 = 0;
        let mut size = self.through;
        let mut left = k;
        for character in self.pattern {
            let next = halve(*character, size, left);
            n = 2 * n + next.bit;
            size = next.size;
            left = next.k;
        }
        n
    }

    // The identifiers that the pattern lets through and that are not listed.
    fn put_others(&self, extended: bool, list: &[u32], page: &mut Page<512>)
        requires { length page.old + 11 * length (not_listed self.now.pattern.now list.now) ≤ 512 }
        ensures { page.new ≡ page.old ++ ids_text extended (not_listed self.now.pattern.now list.now) }
    {
        for k in 0..self.through {
            let id = self.member(k);
            if !occurs(id, list) {
                named::put_id(extended, id, page);
            }
        }
    }

    // The same, or how many they are where they are too many to name.
    fn put_rest(&self, extended: bool, list: &[u32], page: &mut Page<512>)
        requires { (self.now.through ≡ Through·different list.now + length (not_listed self.now.pattern.now list.now))
            × (self.now.through < 2 ^ 32)
            × (length page.old + 176 ≤ 512) }
        ensures { page.new ≡ page.old ++ rest_text extended (not_listed self.now.pattern.now list.now) }
    {
        let others = self.through - different(list);
        if others == 0 {
            page.add(b" none");
        } else if others <= NAMED_LIMIT {
            self.put_others(extended, list, page);
        } else {
            page.add(b" ");
            page.add_decimal(others);
        }
    }

    // The line of what the pattern of a list lets through.
    pub(crate) fn put_through(&self, extended: bool, list: &[u32], page: &mut Page<512>)
        requires { (self.now.through ≡ Through·different list.now + length (not_listed self.now.pattern.now list.now))
            × (self.now.through < 2 ^ 32)
            × (length page.old + 212 ≤ 512) }
        ensures { page.new ≡ page.old ++ through_text extended self.now.pattern.now list.now self.now.through }
    {
        page.add(b"let through ");
        page.add_decimal(self.through);
        page.add(b", not listed:");
        self.put_rest(extended, list, page);
        page.add(b"\n");
    }
}
