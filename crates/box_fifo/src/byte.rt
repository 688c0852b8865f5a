// An arrival's outcome as the byte that a script has for it.
ghost use Rattle.std.specs.Prelude.{◌≡◌};
ghost use Rattle.box_fifo.specs.Ring.{arrival_said};
ghost use Rattle.box_fifo.specs.Byte.{outcome_byte};

use crate::Arrival;

impl From<Arrival> for u8 {
    ghost from_gives = { λ arrival byte. byte ≡ outcome_byte (arrival_said arrival) };

    fn from(arrival: Arrival) -> u8 {
        match arrival {
            Arrival::Whole => 0,
            Arrival::Mark => 1,
            Arrival::NotRecorded => 2,
        }
    }
}
