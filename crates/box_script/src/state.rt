// The box's state as 1,376 bytes.
ghost use Rattle.std.specs.Prelude.{◌≡◌, ◌+◌, ◌%◌, ◌≤◌, length};
ghost use Rattle.refusals.specs.Table.{answer_said};
ghost use Rattle.box_script.specs.State.{words_at, words_bytes, state_bytes};
ghost use Rattle.box_script.specs.Format.{load_at};

use crate::part::{Part, put_parts, read_parts};
use box_records::Record;
use box_state::{Phase, ReceiveBox};
use box_words::Words;
use refusals::Refusal;

pub(crate) fn words_at(script: &[u8], at: usize) -> Words
    requires { at + 12 ≤ length script.now }
    ensures { result ≡ words_at script.now at }
{
    Words {
        interrupt: octets::word_at(script, at),
        enable: octets::word_at(script, at + 4),
        status: octets::word_at(script, at + 8),
    }
}

// The state whose bytes stand at a place.
pub(crate) fn read_state(script: &[u8], at: usize) -> Result<ReceiveBox, Refusal>
    requires { at + 1376 ≤ length script.now }
    ensures { answer_said (λ g. g) result ≡ load_at script.now at }
{
    let mut state = ReceiveBox::fresh();
    state.phase = Phase::try_from(script[at + 1349])?;
    state.held = Record::read(script, at + 1350)?;
    read_parts(&mut state.fifo.entries, script, at)?;
    read_parts(&mut state.queue.places, script, at + 899)?;
    state.fifo.head = usize::from(script[at + 896]);
    state.fifo.count = usize::from(script[at + 897]);
    state.fifo.weight = usize::from(script[at + 898]);
    state.queue.head = usize::from(script[at + 1347]);
    state.queue.count = usize::from(script[at + 1348]);
    state.words = words_at(script, at + 1364);
    Ok(state)
}

fn low(number: usize) -> u8
    ensures { result ≡ number % 256 }
{
    (number % 256) as u8
}

fn put_words(words: Words, out: &mut [u8])
    requires { length out.old ≡ 12 }
    ensures { out.new ≡ words_bytes words }
{
    out[..4].copy_from_slice(&words.interrupt.to_be_bytes());
    out[4..8].copy_from_slice(&words.enable.to_be_bytes());
    out[8..12].copy_from_slice(&words.status.to_be_bytes());
}

pub(crate) fn put_state(state: &ReceiveBox, out: &mut [u8])
    requires { length out.old ≡ 1376 }
    ensures { out.new ≡ state_bytes state.now }
{
    put_parts(&state.fifo.entries, &mut out[..896]);
    out[896] = low(state.fifo.head);
    out[897] = low(state.fifo.count);
    out[898] = low(state.fifo.weight);
    put_parts(&state.queue.places, &mut out[899..1347]);
    out[1347] = low(state.queue.head);
    out[1348] = low(state.queue.count);
    out[1349] = u8::from(state.phase);
    state.held.put(&mut out[1350..1364]);
    put_words(state.words, &mut out[1364..1376]);
}
