// Filter patterns: the acceptance registers that the patterns of a filter's fields ask for. A filter's fields are drawn into a row of 32
// characters as the manual draws the registers, bit 31 first; `x` stands where no field does.
#![tactic(auto)]

ghost use Rattle.std.specs.Prelude.{◌≡◌, true, false, ◌∷◌, [], ◌+◌, ◌-◌, ◌*◌, ◌/◌, ◌%◌, ◌^◌, ◌<◌, ◌≤◌, length, drop, get_or, map};
ghost use Rattle.std.specs.Int.Bits.{bit_and, bit_or};
ghost use Rattle.std.proofs.Math.Seq.{paste};
ghost use Rattle.laws.specs.Said.{gives};
ghost use Rattle.refusals.specs.Table.{refusal_said, answer_said};
ghost use Rattle.filter_characters.specs.Characters.{all_characters};
ghost use Rattle.filter_registers.specs.Registers.{registers_of};
ghost use Rattle.filter_registers.specs.Answers.{compiled_said};
ghost use Rattle.filter_compilers.specs.Table.{single_standard, single_extended, dual_standard, dual_extended, run, joined};
ghost use Rattle.filter_compilers.specs.Words.{word_of, code_of, mask_of};
ghost use Rattle.filter_compilers.specs.Answers.{lengths_of, characters_of, answered, compile_of};

use refusals::Refusal;

// Refused by the first pattern that is not as long as its field is wide.
fn judge_lengths<const N: usize>(lengths: [usize; N], widths: [usize; N]) -> Result<(), Refusal>
    ensures { answer_said (λ _. 8) result ≡ lengths_of 0 widths.entry lengths.entry (gives 8) }
{
    for field in 0..N {
        if lengths[field] != widths[field] {
            return Err(Refusal::PatternLength(field));
        }
    }
    Ok(())
}

// The row with one more run drawn: its last character stands at position `low`.
fn drawn(row: [u8; 32], low: usize, characters: &[u8]) -> [u8; 32]
    requires { low + length characters.now ≤ 32 }
    ensures { result ≡ paste row (32 - low - length characters.now) characters.now (length characters.now) }
{
    let mut row = row;
    let end = 32 - low;
    row[end - characters.len()..end].copy_from_slice(characters);
    row
}

// Eight characters as the bytes of one word, the first on top.
fn eight(row: &[u8; 32], at: usize) -> u64
    requires { at + 8 ≤ 32 }
    ensures { result ≡ word_of (λ c. c) (56 ∷ 48 ∷ 40 ∷ 32 ∷ 24 ∷ 16 ∷ 8 ∷ 0 ∷ []) (drop at row.now) }
{
    u64::from_be_bytes(octets::array_at(row, at))
}

// Of each byte that is a pattern character: bit 0, set in `1` alone, and at bit 4 its bit 6, set in `x` alone.
fn marks(word: u64) -> u64
    ensures { (result ≡ bit_or (bit_and word 0x0101_0101_0101_0101) (bit_and (word / 4) 0x1010_1010_1010_1010)) × (result < 2 ^ 61) }
{
    (word & 0x0101_0101_0101_0101) | ((word / 4) & 0x1010_1010_1010_1010)
}

// The bits of `moved` and those `by` places above them exchanged; the bits of `kept` are all others.
fn exchanged(bits: u64, kept: u64, moved: u64, by: u32) -> u64
    requires { by < 64 }
    ensures { result ≡ bit_or (bit_and bits kept) (bit_or (bit_and bits moved * 2 ^ by % 2 ^ 64) (bit_and (bits / 2 ^ by) moved)) }
{
    (bits & kept) | (((bits & moved) << by) | ((bits >> by) & moved))
}

// Code and mask. The marks of four words make a square of eight times eight bits, a row for the places that stand alike in their words; turned
// about its diagonal, it has the code's four bytes and, above them, those of a bit for each `x`.
fn read(row: &[u8; 32]) -> (u32, u32)
    requires { all_characters row.now ≡ true }
    ensures { (result.0 ≡ code_of (run 0 32) row.now) × (result.1 ≡ mask_of (run 0 32) row.now) }
{
    let first = marks(eight(row, 0)) * 8;
    let second = marks(eight(row, 8)) * 4;
    let third = marks(eight(row, 16)) * 2;
    let square = first | (second | (third | marks(eight(row, 24))));
    let pairs = exchanged(square, 0xAA55_AA55_AA55_AA55, 0x00AA_00AA_00AA_00AA, 7);
    let fours = exchanged(pairs, 0xCCCC_3333_CCCC_3333, 0x0000_CCCC_0000_CCCC, 14);
    let turned = exchanged(fours, 0xF0F0_F0F0_0F0F_0F0F, 0x0000_0000_F0F0_F0F0, 28);
    let code = (turned % 0x1_0000_0000) as u32;
    let free = (turned / 0x1_0000_0000) as u32;
    (code, 0xFFFF_FFFF - free)
}

// Refused by the first byte that is no pattern character, by its field and its place there; the row tells whether there is one.
fn judge_characters(row: &[u8; 32], patterns: &[&[u8]]) -> Result<(), Refusal>
    requires { (length patterns.now ≤ 5) × (length (joined (map (λ p. p.now) patterns.now)) ≤ 32)
        × (all_characters row.now ≡ all_characters (joined (map (λ p. p.now) patterns.now))) }
    ensures { answer_said (λ _. 8) result ≡ characters_of 0 (map (λ p. p.now) patterns.now) }
{
    if filter_characters::all_known(row) {
        return Ok(());
    }
    for field in 0..patterns.len() {
        let pattern = patterns[field];
        if let Some(place) = filter_characters::first_bad(pattern) {
            return Err(Refusal::PatternByte(field as u8, place as u8, pattern[place]));
        }
    }
    Ok(())
}

// The answer for fields that are drawn in a row.
fn compile(row: &[u8; 32], patterns: &[&[u8]]) -> Result<[u8; 8], Refusal>
    requires { (length patterns.now ≤ 5) × (length (joined (map (λ p. p.now) patterns.now)) ≤ 32)
        × (all_characters row.now ≡ all_characters (joined (map (λ p. p.now) patterns.now))) }
    ensures { compiled_said result ≡ answered (characters_of 0 (map (λ p. p.now) patterns.now))
        (registers_of (code_of (run 0 32) row.now) (mask_of (run 0 32) row.now)) }
{
    judge_characters(row, patterns)?;
    let (code, mask) = read(row);
    Ok(filter_registers::made(code, mask))
}

pub fn single_standard(
    id: &[u8],
    rtr: &[u8],
    first: &[u8],
    second: &[u8],
) -> Result<[u8; 8], Refusal>
    ensures { compiled_said result ≡ compile_of single_standard (id.now ∷ rtr.now ∷ first.now ∷ second.now ∷ []) }
{
    judge_lengths(
        [id.len(), rtr.len(), first.len(), second.len()],
        [11, 1, 8, 8],
    )?;
    // identifier 31 to 21, RTR 20, data bytes 15 to 8 and 7 to 0
    let identified = drawn(drawn([b'x'; 32], 21, id), 20, rtr);
    let row = drawn(drawn(identified, 8, first), 0, second);
    compile(&row, &[id, rtr, first, second])
}

pub fn single_extended(id: &[u8], rtr: &[u8]) -> Result<[u8; 8], Refusal>
    ensures { compiled_said result ≡ compile_of single_extended (id.now ∷ rtr.now ∷ []) }
{
    judge_lengths([id.len(), rtr.len()], [29, 1])?;
    // identifier 31 to 3, RTR 2
    let row = drawn(drawn([b'x'; 32], 3, id), 2, rtr);
    compile(&row, &[id, rtr])
}

pub fn dual_standard(
    first_id: &[u8],
    first_rtr: &[u8],
    first_payload: &[u8],
    second_id: &[u8],
    second_rtr: &[u8],
) -> Result<[u8; 8], Refusal>
    ensures { compiled_said result ≡ compile_of dual_standard (first_id.now ∷ first_rtr.now ∷ first_payload.now ∷ second_id.now ∷ second_rtr.now ∷ []) }
{
    judge_lengths(
        [
            first_id.len(),
            first_rtr.len(),
            first_payload.len(),
            second_id.len(),
            second_rtr.len(),
        ],
        [11, 1, 8, 11, 1],
    )?;
    // identifier 31 to 21, RTR 20, high nibble 19 to 16; identifier 15 to 5, RTR 4, low nibble 3 to 0
    let identified = drawn(drawn([b'x'; 32], 21, first_id), 20, first_rtr);
    let first = drawn(identified, 16, &first_payload[..4]);
    let second = drawn(drawn(first, 5, second_id), 4, second_rtr);
    let row = drawn(second, 0, &first_payload[4..]);
    compile(
        &row,
        &[first_id, first_rtr, first_payload, second_id, second_rtr],
    )
}

pub fn dual_extended(first: &[u8], second: &[u8]) -> Result<[u8; 8], Refusal>
    ensures { compiled_said result ≡ compile_of dual_extended (first.now ∷ second.now ∷ []) }
{
    judge_lengths([first.len(), second.len()], [16, 16])?;
    // 31 to 16, 15 to 0
    let row = drawn(drawn([b'x'; 32], 16, first), 0, second);
    compile(&row, &[first, second])
}
