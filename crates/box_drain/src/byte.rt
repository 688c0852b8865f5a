// A command as the byte that a script has for it.
ghost use Rattle.std.specs.Prelude.{◌≡◌};
ghost use Rattle.box_drain.specs.Byte.{command_byte};

use crate::Command;

impl From<Command> for u8 {
    ghost from_gives = { λ command byte. byte ≡ command_byte command };

    fn from(command: Command) -> u8 {
        match command {
            Command::Nothing => 0,
            Command::Abort => 1,
            Command::Release => 2,
        }
    }
}
