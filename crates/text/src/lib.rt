// Texts and numbers put into a lent output, each where it fits, and the place behind it; where it does not fit, all stays.
// A whole text laid into one, and its length, or the refusal.
#![tactic(auto)]

mod page;

ghost use Rattle.std.specs.Prelude.{◌≡◌, ◌+◌, ◌/◌, ◌≤◌, length};
ghost use Rattle.laws.specs.Laid.{laid, laying, written};
ghost use Rattle.text.specs.Decimal.{decimal};
ghost use Rattle.text.specs.Put.{place_behind, put_at};
ghost use Rattle.text.specs.Laying.{laying_said};

pub use page::Page;
use refusals::Refusal;

// No number has more digits.
const MOST_DIGITS: usize = 20;

// How many digits a number has.
pub fn digits(n: usize) -> usize
    ensures { (result ≡ length (decimal n)) × (result ≤ n / 10 + 1) }
{
    if n < 10 {
        return 1;
    }
    digits(n / 10) + 1
}

// A number at a place that has room for it, and the place behind it; two digits a call.
fn put_digits(out: &mut [u8], at: usize, n: usize) -> usize
    requires { at + length (decimal n) ≤ length out.old }
    ensures { (result ≡ at + length (decimal n)) × (out.new ≡ laid at (decimal n) out.old) }
{
    if n < 10 {
        out[at] = (48 + n) as u8;
        return at + 1;
    }
    let tenth = n / 10;
    if tenth < 10 {
        out[at] = (48 + tenth) as u8;
        out[at + 1] = (48 + n % 10) as u8;
        return at + 2;
    }
    let last = put_digits(out, at, tenth / 10);
    out[last] = (48 + tenth % 10) as u8;
    out[last + 1] = (48 + n % 10) as u8;
    last + 2
}

// A number at a place, and the place behind it. Its digits are counted only where there may be too many.
pub fn put_decimal(out: &mut [u8], at: usize, n: usize) -> usize
    ensures value { result ≡ place_behind at (decimal n) out.old }
    ensures out_after { out.new ≡ put_at at (decimal n) out.old }
{
    if at > out.len() {
        return at;
    }
    let room = out.len() - at;
    if room >= MOST_DIGITS {
        return put_digits(out, at, n);
    }
    if room < digits(n) {
        return at;
    }
    put_digits(out, at, n)
}

// A text, or any bytes, at a place, and the place behind them.
pub fn put_text(out: &mut [u8], at: usize, text: &[u8]) -> usize
    ensures value { result ≡ place_behind at text.now out.old }
    ensures out_after { out.new ≡ put_at at text.now out.old }
{
    if at > out.len() {
        return at;
    }
    if out.len() - at < text.len() {
        return at;
    }
    for i in 0..text.len() {
        out[at + i] = text[i];
    }
    at + text.len()
}

// A text, or any bytes, into the front of an output.
pub fn lay(text: &[u8], out: &mut [u8]) -> Result<usize, Refusal>
    ensures result_value { laying_said result ≡ laying text.now out.old }
    ensures out_after { out.new ≡ written (laying text.now out.old) text.now out.old }
{
    let length = text.len();
    if put_text(out, 0, text) < length {
        return Err(Refusal::OutputTooShort(length));
    }
    Ok(length)
}
