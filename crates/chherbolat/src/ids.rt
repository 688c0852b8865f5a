// Identifiers for other languages: a plain number in, an answer of two numbers out (docs/ABI.md).
ghost use Rattle.std.specs.Prelude.{◌≡◌, true, false};
ghost use Rattle.identifiers.specs.Answers.{new_of, base_of};
ghost use Rattle.abi_answers.specs.Answers.{answer_of};

use abi_answers::Answer;

#[unsafe(no_mangle)]
pub extern "C" fn chherbolat_standard_id_new(raw: u16) -> Answer
    ensures { result ≡ answer_of (new_of false raw) }
{
    abi_identifiers::chherbolat_standard_id_new(raw)
}

#[unsafe(no_mangle)]
pub extern "C" fn chherbolat_extended_id_new(raw: u32) -> Answer
    ensures { result ≡ answer_of (new_of true raw) }
{
    abi_identifiers::chherbolat_extended_id_new(raw)
}

#[unsafe(no_mangle)]
pub extern "C" fn chherbolat_extended_id_standard_id(raw: u32) -> Answer
    ensures { result ≡ answer_of (base_of raw) }
{
    abi_identifiers::chherbolat_extended_id_standard_id(raw)
}
