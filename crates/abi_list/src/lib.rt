// A filter from a list for other languages: its pattern and its registers in lent slices (docs/ABI.md).
#![tactic(auto)]

ghost use Rattle.std.specs.Prelude.{◌≡◌, length};
ghost use Rattle.laws.specs.Laid.{written};
ghost use Rattle.identifiers.specs.Limits.{width_of};
ghost use Rattle.filter_list.specs.Pattern.{pattern_of};
ghost use Rattle.filter_list.specs.Answers.{listed_of};
ghost use Rattle.abi_answers.specs.Answers.{answer_of, delivering, delivery_leaves};

use abi_answers::{Answer, deliver};

#[unsafe(no_mangle)]
pub extern "C" fn chherbolat_filter_from_list(
    extended: bool,
    list: &[u32],
    pattern: &mut [u8],
    registers: &mut [u8],
) -> Answer
    ensures value { result ≡ answer_of (delivering 8 3 registers.old (listed_of extended list.now (length pattern.old))) }
    ensures pattern_after { pattern.new ≡ written (delivering 8 3 registers.old (listed_of extended list.now (length pattern.old))) (pattern_of (width_of extended) list.now) pattern.old }
    ensures registers_after { registers.new ≡ delivery_leaves 8 3 registers.old (listed_of extended list.now (length pattern.old)) }
{
    if registers.len() != 8 {
        return abi_answers::wrong_length(3);
    }
    match filter_list::from_list(extended, list, pattern) {
        Ok(listed) => deliver(
            Ok(u64::from(listed.through)),
            &listed.registers,
            3,
            registers,
        ),
        Err(refusal) => deliver(Err(refusal), &[0; 8], 3, registers),
    }
}
