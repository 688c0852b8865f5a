// The calls of a script, each named by its first byte.
ghost use Rattle.std.specs.Prelude.{◌≡◌, ◌+◌, ◌<◌, ◌≤◌, length, IfSome, MatchResult};
ghost use Rattle.box_script.specs.Format.{first_byte, StandsAt, call_length, length_at};
ghost use Rattle.box_script.specs.Answers.{answer_length};

#[derive(Clone, Copy, Debug, PartialEq, Eq)]
pub(crate) enum Call {
    Arrival,
    Take,
    Start,
    Step,
    Load,
    State,
}

// A first byte that is no call.
#[derive(Clone, Copy, Debug, PartialEq, Eq)]
pub(crate) struct NoCall;

impl TryFrom<u8> for Call {
    type Error = NoCall;

    ghost try_from_gives = { λ first read. MatchResult read (λ call. first_byte call ≡ first) (λ _. call_length first ≡ 0) };

    #[tactic(auto, unfolding(crate::specs::Format::call_length))]
    fn try_from(first: u8) -> Result<Call, NoCall> {
        match first {
            1 => Ok(Call::Arrival),
            2 => Ok(Call::Take),
            3 => Ok(Call::Start),
            4 => Ok(Call::Step),
            5 => Ok(Call::Load),
            6 => Ok(Call::State),
            _ => Err(NoCall),
        }
    }
}

impl Call {
    // How long the call is, with its first byte.
    #[tactic(auto, unfolding(crate::specs::Format::call_length))]
    pub(crate) fn length(self) -> usize
        ensures { (result ≡ call_length (first_byte self)) × (0 < result) × (result < 2000) }
    {
        match self {
            Call::Arrival => 14,
            Call::Take => 1,
            Call::Start => 13,
            Call::Step => 1,
            Call::Load => 1377,
            Call::State => 1,
        }
    }

    #[tactic(auto, unfolding(crate::specs::Answers::answer_length))]
    pub(crate) fn answer_length(self) -> usize
        ensures { (result ≡ answer_length (first_byte self)) × (result < 2000) }
    {
        match self {
            Call::Arrival => 2,
            Call::Take => 16,
            Call::Start => 1,
            Call::Step => 23,
            Call::Load => 1,
            Call::State => 1376,
        }
    }

    // The call that stands whole at a place of a script.
    #[tactic(auto, using(crate::proofs::Format::past_end, crate::proofs::Format::none_here, crate::proofs::Format::no_call))]
    pub(crate) fn at(script: &[u8], at: usize) -> Option<Call>
        requires { at ≤ length script.now }
        ensures some { IfSome result (λ call. StandsAt call script.now at) }
        ensures none { result ≡ None → length_at script.now at ≡ 0 }
    {
        let first = *script.get(at)?;
        let call = Call::try_from(first).ok()?;
        if script.len() - at < call.length() {
            return None;
        }
        Some(call)
    }
}
