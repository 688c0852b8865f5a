// The text of a line: a letter, and columns of hexadecimal digits, two a byte, high byte first.
ghost use Rattle.std.specs.Prelude.{◌≤◌, length};

use abi_answers::Answer;
use arrayvec::ArrayVec;

// No line is longer; of one that is, the beginning is read.
pub(crate) const LONGEST: usize = 1280;

fn is_digit(c: &u8) -> bool {
    matches!(c, b'0'..=b'9' | b'a'..=b'f')
}

// The bytes of a line's digits, whatever stands between them.
pub(crate) fn decode(line: &[u8]) -> ArrayVec<u8, 640> {
    let mut digits = ArrayVec::<u8, LONGEST>::new();
    for digit in line.iter().skip(1).copied().filter(is_digit) {
        let _ = digits.try_push(digit);
    }
    let mut bytes = ArrayVec::new();
    for pair in digits.chunks_exact(2) {
        let mut byte = [0];
        let _ = hex::decode_to_slice(pair, &mut byte);
        let _ = bytes.try_push(byte[0]);
    }
    bytes
}

// The bytes of a line that are still to be read. Past the end a number is 0, and a part is empty.
#[derive(Drop)]
pub(crate) struct Columns<'a> {
    pub(crate) rest: &'a [u8],
}

impl<'a> Columns<'a> {
    // The next bytes, so many or what there is of them.
    pub(crate) fn bytes(&mut self, count: usize) -> &'a [u8]
        ensures { length result.now ≤ count }
    {
        let (column, rest) = self.rest.split_at(count.min(self.rest.len()));
        self.rest = rest;
        column
    }

    fn number<const N: usize>(&mut self) -> [u8; N] {
        let column = self.bytes(N);
        let mut number = [0; N];
        let low = &mut number[..];
        low[N - column.len()..].copy_from_slice(column);
        number
    }

    pub(crate) fn byte(&mut self) -> u8 {
        u8::from_be_bytes(self.number())
    }

    pub(crate) fn flag(&mut self) -> bool {
        self.byte() == 1
    }

    pub(crate) fn short(&mut self) -> u16 {
        u16::from_be_bytes(self.number())
    }

    pub(crate) fn long(&mut self) -> u32 {
        u32::from_be_bytes(self.number())
    }

    pub(crate) fn wide(&mut self) -> u64 {
        u64::from_be_bytes(self.number())
    }

    // A pattern's column: its length in a byte, and its bytes.
    pub(crate) fn pattern(&mut self) -> &'a [u8] {
        let length = self.byte();
        self.bytes(length as usize)
    }

    // Whether the next columns store this answer.
    pub(crate) fn says(&mut self, answer: Answer) -> bool {
        let number = self.byte();
        let value = self.wide();
        answer.number == u32::from(number) && answer.value == value
    }

    // Whether they store this answer, and behind it what the call left in the buffer that it was lent.
    pub(crate) fn leaves(&mut self, answer: Answer, lent: &[u8]) -> bool {
        self.says(answer) && lent == self.bytes(lent.len())
    }
}
