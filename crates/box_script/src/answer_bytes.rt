// The answers' bytes: the refusal's number, 0 where there is none, and what the call answers; zeros after a refusal.
ghost use Rattle.std.specs.Prelude.{◌≡◌};
ghost use Rattle.refusals.specs.Table.{number_of};
ghost use Rattle.box_queue.specs.Ring.{take_said};
ghost use Rattle.box_state.specs.Calls.{arriving_said};
ghost use Rattle.box_drain.specs.Answers.{step_said};
ghost use Rattle.box_drain.specs.Start.{starting_said};
ghost use Rattle.box_script.specs.Answers.{arrival_bytes, take_bytes, start_bytes, step_bytes};

use crate::part::{PART, Part};
use box_drain::{Outcome, StepAnswer};
use box_fifo::Arrival;
use box_records::Record;
use refusals::Refusal;

pub(crate) fn number_byte(refusal: Refusal) -> u8
    ensures { result ≡ number_of refusal }
{
    refusal.number() as u8
}

pub(crate) fn arrival_bytes(answer: Result<Arrival, Refusal>) -> [u8; 2]
    ensures { result ≡ arrival_bytes (arriving_said answer) }
{
    match answer {
        Ok(arrival) => [0, u8::from(arrival)],
        Err(refusal) => [number_byte(refusal), 0],
    }
}

pub(crate) fn take_bytes(answer: Result<Option<Record>, Refusal>) -> [u8; 16]
    ensures { result ≡ take_bytes (take_said answer).0 (take_said answer).1 }
{
    let mut bytes = [0; 16];
    match answer {
        Ok(Some(oldest)) => {
            bytes[1] = 1;
            oldest.put(&mut bytes[2..]);
        }
        Ok(None) => {}
        Err(refusal) => bytes[0] = number_byte(refusal),
    }
    bytes
}

pub(crate) fn start_bytes(answer: Result<(), Refusal>) -> [u8; 1]
    ensures { result ≡ start_bytes (starting_said answer) }
{
    match answer {
        Ok(()) => [0],
        Err(refusal) => [number_byte(refusal)],
    }
}

pub(crate) fn step_bytes(answer: Result<StepAnswer, Refusal>) -> [u8; 23]
    ensures { result ≡ step_bytes (step_said answer).0 (step_said answer).1 (step_said answer).2 }
{
    let mut bytes = [0; 23];
    match answer {
        Ok(step) => {
            bytes[2] = u8::from(step.command);
            match step.outcome {
                Outcome::Done => {}
                Outcome::Lost(lost) => {
                    bytes[1] = 1;
                    lost.put(&mut bytes[3..3 + PART]);
                }
                Outcome::Finished(finished) => {
                    bytes[1] = 2;
                    bytes[17] = finished.transmit_wakes;
                    bytes[18] = finished.error_wakes;
                    bytes[19..].copy_from_slice(&finished.enable.to_be_bytes());
                }
            }
        }
        Err(refusal) => bytes[0] = number_byte(refusal),
    }
    bytes
}
