// The three decisions for other languages: the answer, the command and whether a frame is in flight, in one number (docs/ABI.md).
#![tactic(auto)]

ghost use Rattle.std.specs.Prelude.{◌≡◌, ◌≤◌};
ghost use Rattle.laws.specs.Said.{gives};
ghost use Rattle.abi_answers.specs.Answers.{answer_of};
ghost use Rattle.status_decisions.specs.Answers.{command_said, transmit_said, poll_said, receive_said};
ghost use Rattle.status_decisions.specs.Decisions.{transmit_of, poll_of, receive_of};
ghost use Rattle.abi_decisions.specs.Numbers.{answer_number, action_number, decided, polled};
ghost use Rattle.abi_decisions.specs.Commands.{with_transmit, with_receive};

use abi_answers::Answer;
use status_decisions::{Command, PollError, ReceiveError, TransmitError};

fn command_number(command: Command) -> u64
    ensures { (result ≡ action_number (command_said command)) × (result ≤ 3) }
{
    match command {
        Command::Nothing => 0,
        Command::Abort => 1,
        Command::WriteFrame => 2,
        Command::ReadAndRelease => 3,
    }
}

// The command goes with the answer, so one look at the answer gives both numbers.
fn transmit_number(answer: Result<(), TransmitError>) -> u64
    ensures { result ≡ decided (transmit_said answer, with_transmit (transmit_said answer)) }
{
    match answer {
        Ok(()) => 0x200,
        Err(TransmitError::WouldBlock) => 1,
        Err(TransmitError::BusOff) => 3,
        Err(TransmitError::TransmissionAborted) => 0x104,
    }
}

fn poll_number(answer: Option<Result<(), PollError>>) -> u64
    ensures { (result ≡ answer_number (poll_said answer)) × (result ≤ 5) }
{
    match answer {
        Some(Ok(())) => 0,
        None => 2,
        Some(Err(PollError::BusOff)) => 3,
        Some(Err(PollError::TransmissionAborted)) => 4,
    }
}

fn receive_number(answer: Result<(), ReceiveError>) -> u64
    ensures { result ≡ decided (receive_said answer, with_receive (receive_said answer)) }
{
    match answer {
        Ok(()) => 0x300,
        Err(ReceiveError::WouldBlock) => 1,
        Err(ReceiveError::BusOff) => 3,
        Err(ReceiveError::Overrun) => 5,
    }
}

#[unsafe(no_mangle)]
pub extern "C" fn chherbolat_transmit(status: u32, error_passive: bool) -> Answer
    ensures { result ≡ answer_of (gives (decided (transmit_of status error_passive))) }
{
    let decision = status_decisions::transmit(status, error_passive);
    abi_answers::given(transmit_number(decision.answer))
}

#[unsafe(no_mangle)]
pub extern "C" fn chherbolat_poll(status: u32, error_passive: bool, in_flight: bool) -> Answer
    ensures { result ≡ answer_of (gives (polled (poll_of status error_passive in_flight))) }
{
    let decision = status_decisions::poll(status, error_passive, in_flight);
    let number = poll_number(decision.answer) + command_number(decision.command) * 256;
    abi_answers::given(number + octets::one_bit(decision.in_flight) as u64 * 65536)
}

#[unsafe(no_mangle)]
pub extern "C" fn chherbolat_receive(status: u32) -> Answer
    ensures { result ≡ answer_of (gives (decided (receive_of status))) }
{
    let decision = status_decisions::receive(status);
    abi_answers::given(receive_number(decision.answer))
}
