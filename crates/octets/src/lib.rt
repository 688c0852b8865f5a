// Bytes and flags as numbers, with their bounds; a word from its four bytes, its lowest byte; a word and thirteen bytes from a place on.
#![tactic(auto)]

ghost use Rattle.std.specs.Prelude.{◌≡◌, ◌∷◌, [], ◌<◌, ◌%◌, ◌^◌};
ghost use Rattle.laws.specs.Row.{bit, pack, bytes};
ghost use Rattle.octets.specs.Part.{part_or_zeros};

pub fn wide(byte: u8) -> u32
    ensures { (result ≡ byte) × (result < 256) }
{
    u32::from(byte)
}

pub fn one_bit(flag: bool) -> u8
    ensures { (result ≡ bit flag) × (result < 2) }
{
    u8::from(flag)
}

// The high byte first.
pub fn word(a: u8, b: u8, c: u8, d: u8) -> u32
    ensures { (result ≡ pack (bytes 4) (a ∷ b ∷ c ∷ d ∷ [])) × (result < 2 ^ 32) }
{
    u32::from_be_bytes([a, b, c, d])
}

pub fn low_byte(word: u32) -> u8
    ensures { result ≡ word % 256 }
{
    (word % 256) as u8
}

// The word of four bytes from a place on; 0 where there are fewer.
pub fn word_at(slice: &[u8], at: usize) -> u32
    ensures { (result ≡ pack (bytes 4) (part_or_zeros 4 at slice.now)) × (result < 2 ^ 32) }
{
    let bytes: [u8; 4] = array_at(slice, at);
    word(bytes[0], bytes[1], bytes[2], bytes[3])
}

// So many bytes from a place on; zeros where there are fewer.
#[tactic(auto, using(crate::proofs::Part::copied))]
pub fn array_at<const N: usize>(bytes: &[u8], at: usize) -> [u8; N]
    ensures { result ≡ part_or_zeros N at bytes.now }
{
    let mut part = [0; N];
    if at <= bytes.len() && N <= bytes.len() - at {
        part.copy_from_slice(&bytes[at..at + N]);
    }
    part
}
