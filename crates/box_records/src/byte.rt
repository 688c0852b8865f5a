// A record's kind as the byte that a script has for it.
ghost use Rattle.std.specs.Prelude.{◌≡◌};
ghost use Rattle.box_records.specs.Byte.{kind_byte, kind_read};

use crate::{RecordError, RecordKind};
use refusals::Refusal;

impl From<RecordKind> for u8 {
    ghost from_gives = { λ kind byte. byte ≡ kind_byte kind };

    fn from(kind: RecordKind) -> u8 {
        match kind {
            RecordKind::Frame => 0,
            RecordKind::Error(RecordError::Overrun) => 1,
            RecordKind::Error(RecordError::BusOff) => 2,
        }
    }
}

impl TryFrom<u8> for RecordKind {
    type Error = Refusal;

    ghost try_from_gives = { λ byte read. read ≡ kind_read byte };

    fn try_from(byte: u8) -> Result<RecordKind, Refusal> {
        match byte {
            0 => Ok(RecordKind::Frame),
            1 => Ok(RecordKind::Error(RecordError::Overrun)),
            2 => Ok(RecordKind::Error(RecordError::BusOff)),
            _ => Err(Refusal::BrokenState),
        }
    }
}
