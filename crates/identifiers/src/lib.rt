// Identifiers: 11 bits or 29 bits, each in a struct of its own, so that one never passes for the other.
#![tactic(auto)]

ghost use Rattle.std.specs.Prelude.{◌≡◌, true, false, ◌≤◌};
ghost use Rattle.identifiers.specs.Limits.{width_of, limit_of, within_limit};
ghost use Rattle.identifiers.specs.Answers.{standard_said, extended_said, new_of, base_of};

use refusals::Refusal;

#[derive(Clone, Copy, Debug, PartialEq, Eq)]
pub struct StandardId(pub u16);

#[derive(Clone, Copy, Debug, PartialEq, Eq)]
pub struct ExtendedId(pub u32);

// One or the other, and which.
#[derive(Clone, Copy, Debug, PartialEq, Eq)]
pub enum Id {
    Standard(StandardId),
    Extended(ExtendedId),
}

pub fn width(extended: bool) -> usize
    ensures { (result ≡ width_of extended) × (result ≤ 29) }
{
    if extended {
        return 29;
    }
    11
}

pub fn limit(extended: bool) -> u32
    ensures { result ≡ limit_of extended }
{
    if extended {
        return 0x1FFF_FFFF;
    }
    0x7FF
}

impl StandardId {
    pub fn new(raw: u16) -> Result<StandardId, Refusal>
        ensures { standard_said result ≡ new_of false raw }
    {
        if raw > 0x7FF {
            return Err(Refusal::IdentifierAboveLimit);
        }
        Ok(StandardId(raw))
    }

    pub fn as_raw(self) -> u16
        ensures { result ≡ self.0 }
    {
        self.0
    }
}

impl ExtendedId {
    pub fn new(raw: u32) -> Result<ExtendedId, Refusal>
        ensures { extended_said result ≡ new_of true raw }
    {
        if raw > 0x1FFF_FFFF {
            return Err(Refusal::IdentifierAboveLimit);
        }
        Ok(ExtendedId(raw))
    }

    pub fn as_raw(self) -> u32
        ensures { result ≡ self.0 }
    {
        let ExtendedId(raw) = self;
        raw
    }

    // The base identifier: ID-28 to ID-18.
    pub fn standard_id(self) -> Result<StandardId, Refusal>
        ensures { standard_said result ≡ base_of self.0 }
    {
        let id = ExtendedId::new(self.0)?;
        Ok(StandardId((id.0 >> 18) as u16))
    }
}

impl Id {
    // A struct's number is open to all, so whoever is handed one asks.
    pub fn within_limit(self) -> bool
        ensures { result ≡ within_limit self }
    {
        match self {
            Id::Standard(id) => id.0 <= 0x7FF,
            Id::Extended(id) => id.0 <= 0x1FFF_FFFF,
        }
    }
}
