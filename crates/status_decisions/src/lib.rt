// Decisions: what transmit, the transmit poll and receive answer to a status word, and the command that goes with the answer.
#![tactic(auto)]

ghost use Rattle.std.specs.Prelude.{◌≡◌};
ghost use Rattle.status_decisions.specs.Answers.{transmission_said, polling_said, reception_said};
ghost use Rattle.status_decisions.specs.Decisions.{transmit_of, poll_of, receive_of};

use status_bits::{BUS_OFF, MISS, RECEIVE_READY, TRANSMIT_FREE, is_set};

// What is to be done to the peripheral. The frame that is written is the caller's; a decision never looks into it.
#[derive(Clone, Copy, Debug, PartialEq, Eq)]
pub enum Command {
    Nothing,
    Abort,
    WriteFrame,
    ReadAndRelease,
}

// Why the frame is not written.
#[derive(Clone, Copy, Debug, PartialEq, Eq)]
pub enum TransmitError {
    BusOff,
    TransmissionAborted,
    WouldBlock,
}

// Why the frame will not be sent.
#[derive(Clone, Copy, Debug, PartialEq, Eq)]
pub enum PollError {
    BusOff,
    TransmissionAborted,
}

// Why no frame is read.
#[derive(Clone, Copy, Debug, PartialEq, Eq)]
pub enum ReceiveError {
    BusOff,
    WouldBlock,
    Overrun,
}

#[derive(Clone, Copy, Debug, PartialEq, Eq)]
pub struct Decision<E> {
    pub answer: Result<(), E>,
    pub command: Command,
}

// The answer is none while the future is pending. In flight: whether its frame has been written, after the poll.
#[derive(Clone, Copy, Debug, PartialEq, Eq)]
pub struct Polling {
    pub answer: Option<Result<(), PollError>>,
    pub command: Command,
    pub in_flight: bool,
}

pub fn transmit(status: u32, error_passive: bool) -> Decision<TransmitError>
    ensures { transmission_said result ≡ transmit_of status error_passive }
{
    let (answer, command) = if is_set(status, BUS_OFF) {
        (Err(TransmitError::BusOff), Command::Nothing)
    } else if is_set(status, TRANSMIT_FREE) {
        (Ok(()), Command::WriteFrame)
    } else if error_passive {
        (Err(TransmitError::TransmissionAborted), Command::Abort)
    } else {
        (Err(TransmitError::WouldBlock), Command::Nothing)
    };
    Decision { answer, command }
}

pub fn poll(status: u32, error_passive: bool, in_flight: bool) -> Polling
    ensures { polling_said result ≡ poll_of status error_passive in_flight }
{
    let waiting = Polling {
        answer: None,
        command: Command::Nothing,
        in_flight,
    };
    if is_set(status, BUS_OFF) {
        return Polling {
            answer: Some(Err(PollError::BusOff)),
            ..waiting
        };
    }
    if is_set(status, TRANSMIT_FREE) {
        if in_flight {
            return Polling {
                answer: Some(Ok(())),
                ..waiting
            };
        }
        return Polling {
            command: Command::WriteFrame,
            in_flight: true,
            ..waiting
        };
    }
    if error_passive {
        return Polling {
            answer: Some(Err(PollError::TransmissionAborted)),
            command: Command::Abort,
            ..waiting
        };
    }
    waiting
}

pub fn receive(status: u32) -> Decision<ReceiveError>
    ensures { reception_said result ≡ receive_of status }
{
    let (answer, command) = if is_set(status, BUS_OFF) {
        (Err(ReceiveError::BusOff), Command::Nothing)
    } else if !is_set(status, RECEIVE_READY) {
        (Err(ReceiveError::WouldBlock), Command::Nothing)
    } else if is_set(status, MISS) {
        (Err(ReceiveError::Overrun), Command::Nothing)
    } else {
        (Ok(()), Command::ReadAndRelease)
    };
    Decision { answer, command }
}
