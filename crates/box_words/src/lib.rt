// The words of a start, what they call for, and what a finish answers.
#![tactic(auto)]

ghost use Rattle.std.specs.Prelude.{◌≡◌};
ghost use Rattle.box_words.specs.Due.{receive_due, notice_due, error_due, finish_of};

use octets::one_bit;
use status_bits::{
    BUS_ERROR, BUS_OFF, ERROR, ERROR_PASSIVE, ERROR_WARNING, RECEIVE, TRANSMIT, is_set,
};

#[derive(Clone, Copy, Debug, PartialEq, Eq)]
pub struct Words {
    pub interrupt: u32,
    pub enable: u32,
    pub status: u32,
}

// The wakes and the new enable word.
#[derive(Clone, Copy, Debug, PartialEq, Eq)]
pub struct Finished {
    pub transmit_wakes: u8,
    pub error_wakes: u8,
    pub enable: u32,
}

impl Words {
    #[tactic(auto, unfolding(crate::specs::Due::receive_due))]
    pub fn receive_due(self) -> bool
        ensures { result ≡ receive_due self }
    {
        is_set(self.interrupt, RECEIVE)
    }

    #[tactic(auto, unfolding(crate::specs::Due::notice_due))]
    pub fn notice_due(self) -> bool
        ensures { result ≡ notice_due self }
    {
        is_set(self.status, BUS_OFF)
            && is_set(self.status, ERROR)
            && is_set(self.interrupt, ERROR_WARNING)
    }

    #[tactic(auto, unfolding(crate::specs::Due::error_due))]
    fn error_due(self) -> bool
        ensures { result ≡ error_due self }
    {
        is_set(self.interrupt, ERROR_WARNING)
            || is_set(self.interrupt, ERROR_PASSIVE)
            || is_set(self.interrupt, BUS_ERROR)
    }

    #[tactic(auto, unfolding(crate::specs::Due::finish_of))]
    pub fn finish(self) -> Finished
        ensures { result ≡ finish_of self }
    {
        let notice = one_bit(self.notice_due());
        let sent = one_bit(is_set(self.interrupt, TRANSMIT));
        let errors = one_bit(self.error_due());
        Finished {
            transmit_wakes: notice + sent + errors,
            error_wakes: notice + errors,
            enable: self.enable & (!self.interrupt | 1),
        }
    }
}
