// Identifiers for other languages: a plain number in, an answer of two numbers out (docs/ABI.md).
#![tactic(auto)]

ghost use Rattle.std.specs.Prelude.{◌≡◌, true, false};
ghost use Rattle.identifiers.specs.Answers.{new_of, base_of};
ghost use Rattle.abi_answers.specs.Answers.{answer_of};

use abi_answers::Answer;
use identifiers::{ExtendedId, StandardId};

#[unsafe(no_mangle)]
pub extern "C" fn chherbolat_standard_id_new(raw: u16) -> Answer
    ensures { result ≡ answer_of (new_of false raw) }
{
    abi_answers::answered(StandardId::new(raw).map(|id| u64::from(id.as_raw())))
}

#[unsafe(no_mangle)]
pub extern "C" fn chherbolat_extended_id_new(raw: u32) -> Answer
    ensures { result ≡ answer_of (new_of true raw) }
{
    abi_answers::answered(ExtendedId::new(raw).map(|id| u64::from(id.as_raw())))
}

#[unsafe(no_mangle)]
pub extern "C" fn chherbolat_extended_id_standard_id(raw: u32) -> Answer
    ensures { result ≡ answer_of (base_of raw) }
{
    let base = ExtendedId(raw).standard_id();
    abi_answers::answered(base.map(|id| u64::from(id.as_raw())))
}
