// The three decisions for other languages: the answer, the command and whether a frame is in flight, in one number (docs/ABI.md).
ghost use Rattle.std.specs.Prelude.{◌≡◌};
ghost use Rattle.laws.specs.Said.{gives};
ghost use Rattle.abi_answers.specs.Answers.{answer_of};
ghost use Rattle.status_decisions.specs.Decisions.{transmit_of, poll_of, receive_of};
ghost use Rattle.abi_decisions.specs.Numbers.{decided, polled};

use abi_answers::Answer;

#[unsafe(no_mangle)]
pub extern "C" fn chherbolat_transmit(status: u32, error_passive: bool) -> Answer
    ensures { result ≡ answer_of (gives (decided (transmit_of status error_passive))) }
{
    abi_decisions::chherbolat_transmit(status, error_passive)
}

#[unsafe(no_mangle)]
pub extern "C" fn chherbolat_poll(status: u32, error_passive: bool, in_flight: bool) -> Answer
    ensures { result ≡ answer_of (gives (polled (poll_of status error_passive in_flight))) }
{
    abi_decisions::chherbolat_poll(status, error_passive, in_flight)
}

#[unsafe(no_mangle)]
pub extern "C" fn chherbolat_receive(status: u32) -> Answer
    ensures { result ≡ answer_of (gives (decided (receive_of status))) }
{
    abi_decisions::chherbolat_receive(status)
}
