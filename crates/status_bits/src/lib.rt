// The bits of the status word and of the interrupt word by their positions, and whether one is set.
#![tactic(auto)]

ghost use Rattle.std.specs.Prelude.{◌≡◌};
ghost use Rattle.laws.specs.Bits.{is_set};

// Status bits by the manual.
pub const RECEIVE_READY: u32 = 0;

pub const TRANSMIT_FREE: u32 = 2;

pub const ERROR: u32 = 6;

pub const BUS_OFF: u32 = 7;

pub const MISS: u32 = 8;

// Interrupt bits by the manual.
pub const RECEIVE: u32 = 0;

pub const TRANSMIT: u32 = 1;

pub const ERROR_WARNING: u32 = 2;

pub const ERROR_PASSIVE: u32 = 5;

pub const BUS_ERROR: u32 = 7;

// A word has 32 bits: none beyond is set.
pub fn is_set(word: u32, position: u32) -> bool
    ensures { result ≡ is_set word position }
{
    if position >= 32 {
        return false;
    }
    (word >> position) % 2 == 1
}
