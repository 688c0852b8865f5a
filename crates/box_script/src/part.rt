// What a state holds many of: parts of fourteen bytes, a first that says what the part is and thirteen beside it.
ghost use Rattle.std.specs.Prelude.{◌≡◌, ℕ, List, ◌∷◌, ◌+◌, ◌*◌, ◌≤◌, length, flat_map, OnOk, refl};
ghost use Rattle.laws.specs.Tabulate.{part, tabulate};
ghost use Rattle.box_script.specs.State.{mark_limit, kind_limit, entry_at, entry_bytes, record_at, record_bytes, part_read, parts_read};

use box_fifo::Entry;
use box_records::{Record, RecordKind};
use refusals::Refusal;

pub(crate) const PART: usize = 14;

pub(crate) trait Part: Copy {
    // The largest first byte, the part at a place whose first byte is no larger, and a part's bytes.
    ghost limit: { ℕ };

    ghost part_at: { List ℕ → ℕ → Self };

    ghost text: { Self → List ℕ };

    fn read(script: &[u8], at: usize) -> Result<Self, Refusal>
        requires { at + 14 ≤ length script.now }
        ensures { result ≡ part_read limit part_at script.now at };

    fn put(self, out: &mut [u8])
        requires { length out.old ≡ 14 }
        ensures { out.new ≡ text self };

    ghost long: { (x : Self) → length (text x) ≡ 14 };
}

// Thirteen bytes behind one.
fn put_fourteen(first: u8, beside: &[u8; 13], out: &mut [u8])
    requires { length out.old ≡ 14 }
    ensures { out.new ≡ first ∷ part beside.now 0 13 }
{
    out[0] = first;
    out[1..].copy_from_slice(beside);
}

impl Part for Entry {
    ghost limit = { mark_limit };

    ghost part_at = { entry_at };

    ghost text = { entry_bytes };

    ghost long = { λ _. refl };

    fn read(script: &[u8], at: usize) -> Result<Entry, Refusal> {
        let mark = match script[at] {
            0 => false,
            1 => true,
            _ => return Err(Refusal::BrokenState),
        };
        Ok(Entry {
            mark,
            bytes: octets::array_at(script, at + 1),
        })
    }

    fn put(self, out: &mut [u8]) {
        put_fourteen(octets::one_bit(self.mark), &self.bytes, out);
    }
}

impl Part for Record {
    ghost limit = { kind_limit };

    ghost part_at = { record_at };

    ghost text = { record_bytes };

    ghost long = { λ _. refl };

    fn read(script: &[u8], at: usize) -> Result<Record, Refusal> {
        let kind = RecordKind::try_from(script[at])?;
        Ok(Record {
            kind,
            bytes: octets::array_at(script, at + 1),
        })
    }

    fn put(self, out: &mut [u8]) {
        put_fourteen(u8::from(self.kind), &self.bytes, out);
    }
}

// Parts that stand one after the other from a place on.
pub(crate) fn read_parts<P: Part>(parts: &mut [P], script: &[u8], at: usize) -> Result<(), Refusal>
    requires { at + 14 * length parts.old ≤ length script.now }
    ensures value { result ≡ parts_read (length parts.old) P.limit script.now at }
    ensures filled { OnOk result (parts.new ≡ tabulate (length parts.old) (λ i. P.part_at script.now (at + 14 * i))) }
{
    for (i, part) in parts.iter_mut().enumerate() {
        *part = P::read(script, at + PART * i)?;
    }
    Ok(())
}

// Each part behind the one before it.
pub(crate) fn put_parts<P: Part>(parts: &[P], out: &mut [u8])
    requires { length out.old ≡ 14 * length parts.now }
    ensures { out.new ≡ flat_map P.text parts.now }
{
    for (i, part) in parts.iter().enumerate() {
        part.put(&mut out[PART * i..PART * i + PART]);
    }
}
