// What an exported function answers, and bytes in and out of lent slices.
#![tactic(auto)]

ghost use Rattle.std.specs.Prelude.{◌≡◌, ◌≢◌, MatchResult, [], ◌∷◌, length};
ghost use Rattle.laws.specs.Said.{gives, refuses};
ghost use Rattle.laws.specs.Row.{bit};
ghost use Rattle.laws.specs.Laid.{laid_first, laying, written};
ghost use Rattle.refusals.specs.Table.{refusal_said, answer_said, bytes_said};
ghost use Rattle.abi_answers.specs.Answers.{answer_of, laid_into, lent_said, delivery_said, delivering, delivery_leaves};

use refusals::Refusal;

#[repr(C)]
#[derive(Clone, Copy, Debug, PartialEq, Eq)]
pub struct Answer {
    pub number: u32,
    pub value: u64,
}

pub fn given(value: u64) -> Answer
    ensures { result ≡ answer_of (gives value) }
{
    Answer { number: 0, value }
}

pub fn given_flag(flag: bool) -> Answer
    ensures { result ≡ answer_of (gives (bit flag)) }
{
    given(u64::from(flag))
}

pub fn refused(refusal: Refusal) -> Answer
    ensures { result ≡ answer_of (refusal_said refusal) }
{
    Answer {
        number: refusal.number(),
        value: refusal.carried(),
    }
}

pub fn wrong_length(argument: usize) -> Answer
    ensures { result ≡ answer_of (refuses 14 (argument ∷ [])) }
{
    refused(Refusal::WrongLength(argument))
}

// What a call under an export comes to where it gives one number.
pub fn answered(came: Result<u64, Refusal>) -> Answer
    ensures { result ≡ answer_of (answer_said (λ value. value) came) }
{
    match came {
        Ok(value) => given(value),
        Err(refusal) => refused(refusal),
    }
}

// Bytes into the front of a lent output.
pub fn lay(bytes: &[u8], out: &mut [u8]) -> Answer
    ensures value { result ≡ answer_of (laying bytes.now out.old) }
    ensures out_after { out.new ≡ written (laying bytes.now out.old) bytes.now out.old }
{
    answered(text::lay(bytes, out).map(|length| length as u64))
}

// A slice as an array of so many bytes.
#[inline(always)]
pub fn array<const N: usize>(slice: &[u8]) -> [u8; N]
    ensures { result ≡ laid_into N slice.now }
{
    let mut bytes = [0; N];
    if slice.len() == N {
        bytes.copy_from_slice(slice);
    } else {
        lay(slice, &mut bytes);
    }
    bytes
}

// A slice as an array where it stands; one of another length is refused, as the argument of this number.
#[inline(always)]
pub fn sized<const N: usize>(slice: &[u8], argument: usize) -> Result<&[u8; N], Refusal>
    ensures cases { MatchResult result (λ array. (array.now ≡ slice.now) × (length slice.now ≡ N))
        (λ refusal. (refusal ≡ Refusal.WrongLength argument) × (length slice.now ≢ N)) }
    ensures told { answer_said (λ array. array.now) result ≡ lent_said N argument slice.now }
{
    <&[u8; N]>::try_from(slice).map_err(|_| Refusal::WrongLength(argument))
}

// The answer, and the bytes beside it in a lent slice, the argument of this number: it is as long as they are, or it is refused.
#[inline(always)]
pub fn deliver(
    delivery: Result<u64, Refusal>,
    bytes: &[u8],
    argument: usize,
    out: &mut [u8],
) -> Answer
    ensures value { result ≡ answer_of (delivering (length bytes.now) argument out.old (delivery_said delivery, bytes.now)) }
    ensures out_after { out.new ≡ delivery_leaves (length bytes.now) argument out.old (delivery_said delivery, bytes.now) }
{
    if out.len() != bytes.len() {
        return wrong_length(argument);
    }
    match delivery {
        Ok(value) => {
            out.copy_from_slice(bytes);
            given(value)
        }
        Err(refusal) => refused(refusal),
    }
}

// The bytes that a call under an export makes, in a lent slice likewise, and their number as the answer.
pub fn deliver_bytes<const N: usize>(
    made: Result<[u8; N], Refusal>,
    argument: usize,
    out: &mut [u8],
) -> Answer
    ensures value { result ≡ answer_of (delivering N argument out.old (bytes_said N made.entry)) }
    ensures out_after { out.new ≡ delivery_leaves N argument out.old (bytes_said N made.entry) }
{
    match made {
        Ok(bytes) => deliver(Ok(N as u64), &bytes, argument, out),
        Err(refusal) => deliver(Err(refusal), &[0; N], argument, out),
    }
}
