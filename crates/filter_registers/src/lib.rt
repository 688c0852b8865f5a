// Filter registers: the eight acceptance registers of a code and a mask.
#![tactic(auto)]

ghost use Rattle.std.specs.Prelude.{◌≡◌, replicate};
ghost use Rattle.refusals.specs.Table.{refusal_said};
ghost use Rattle.filter_registers.specs.Registers.{registers_of};
ghost use Rattle.filter_registers.specs.Answers.{compiled_said};

use refusals::Refusal;

pub fn refused(refusal: Refusal) -> Result<[u8; 8], Refusal>
    ensures { compiled_said result ≡ (refusal_said refusal, replicate 8 0) }
{
    Err(refusal)
}

pub fn made(code: u32, mask: u32) -> [u8; 8]
    ensures { result ≡ registers_of code mask }
{
    let word = (u64::from(code) << 32) + 0xFFFF_FFFF - u64::from(mask);
    word.to_be_bytes()
}
