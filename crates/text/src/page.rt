// A page: a text that is composed of parts, at most so many bytes.
ghost use Rattle.std.specs.Prelude.{◌≡◌, ℕ, ◌≤◌, List, [], take};
ghost use Rattle.text.specs.Decimal.{decimal};
ghost use Rattle.text.specs.Page.{added};

use std::marker::Model;

#[derive(Debug, Drop)]
pub struct Page<const N: usize> {
    bytes: [u8; N],
    used: usize,
}

// Clauses see what was written so far.
impl<const N: usize> Model for Page<N> {
    ghost Value = { List ℕ };

    ghost view = { λ page. take page.used page.bytes };

    ghost invariant = { λ page. page.used ≤ N };
}

impl<const N: usize> Page<N> {
    pub fn new() -> Page<N>
        ensures { result ≡ [] }
    {
        Page {
            bytes: [0; N],
            used: 0,
        }
    }

    // A text, or any bytes, behind all that is written, where there is room for it.
    pub fn add(&mut self, text: &[u8])
        ensures { self.new ≡ added N self.old text.now }
    {
        self.used = crate::put_text(&mut self.bytes, self.used, text);
    }

    // A number in decimal, likewise.
    pub fn add_decimal(&mut self, n: usize)
        ensures { self.new ≡ added N self.old (decimal n) }
    {
        self.used = crate::put_decimal(&mut self.bytes, self.used, n);
    }

    pub fn as_slice(&self) -> &[u8]
        ensures { result.now ≡ self.now }
    {
        &self.bytes[..self.used]
    }
}
