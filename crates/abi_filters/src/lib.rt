// The four filter compilers by patterns, into a lent slice of eight registers.
#![tactic(auto)]

ghost use Rattle.std.specs.Prelude.{◌≡◌, [], ◌∷◌};
ghost use Rattle.filter_compilers.specs.Table.{single_standard, single_extended, dual_standard, dual_extended};
ghost use Rattle.filter_compilers.specs.Answers.{compile_of};
ghost use Rattle.abi_answers.specs.Answers.{answer_of, delivering, delivery_leaves};

use abi_answers::Answer;
use filter_types::{
    DualExtendedFilter, DualStandardFilter, SingleExtendedFilter, SingleStandardFilter,
};

#[unsafe(no_mangle)]
pub extern "C" fn chherbolat_single_standard_filter_new(
    id: &[u8],
    rtr: &[u8],
    first: &[u8],
    second: &[u8],
    registers: &mut [u8],
) -> Answer
    ensures value { result ≡ answer_of (delivering 8 4 registers.old (compile_of single_standard (id.now ∷ rtr.now ∷ first.now ∷ second.now ∷ []))) }
    ensures registers_after { registers.new ≡ delivery_leaves 8 4 registers.old (compile_of single_standard (id.now ∷ rtr.now ∷ first.now ∷ second.now ∷ [])) }
{
    abi_answers::deliver_bytes(
        SingleStandardFilter::new(id, rtr, first, second),
        4,
        registers,
    )
}

#[unsafe(no_mangle)]
pub extern "C" fn chherbolat_single_extended_filter_new(
    id: &[u8],
    rtr: &[u8],
    registers: &mut [u8],
) -> Answer
    ensures value { result ≡ answer_of (delivering 8 2 registers.old (compile_of single_extended (id.now ∷ rtr.now ∷ []))) }
    ensures registers_after { registers.new ≡ delivery_leaves 8 2 registers.old (compile_of single_extended (id.now ∷ rtr.now ∷ [])) }
{
    abi_answers::deliver_bytes(SingleExtendedFilter::new(id, rtr), 2, registers)
}

#[unsafe(no_mangle)]
pub extern "C" fn chherbolat_dual_standard_filter_new(
    first_id: &[u8],
    first_rtr: &[u8],
    first_payload: &[u8],
    second_id: &[u8],
    second_rtr: &[u8],
    registers: &mut [u8],
) -> Answer
    ensures value { result ≡ answer_of (delivering 8 5 registers.old (compile_of dual_standard (first_id.now ∷ first_rtr.now ∷ first_payload.now ∷ second_id.now ∷ second_rtr.now ∷ []))) }
    ensures registers_after { registers.new ≡ delivery_leaves 8 5 registers.old (compile_of dual_standard (first_id.now ∷ first_rtr.now ∷ first_payload.now ∷ second_id.now ∷ second_rtr.now ∷ [])) }
{
    abi_answers::deliver_bytes(
        DualStandardFilter::new(first_id, first_rtr, first_payload, second_id, second_rtr),
        5,
        registers,
    )
}

#[unsafe(no_mangle)]
pub extern "C" fn chherbolat_dual_extended_filter_new(
    first: &[u8],
    second: &[u8],
    registers: &mut [u8],
) -> Answer
    ensures value { result ≡ answer_of (delivering 8 2 registers.old (compile_of dual_extended (first.now ∷ second.now ∷ []))) }
    ensures registers_after { registers.new ≡ delivery_leaves 8 2 registers.old (compile_of dual_extended (first.now ∷ second.now ∷ [])) }
{
    abi_answers::deliver_bytes(DualExtendedFilter::new(first, second), 2, registers)
}
