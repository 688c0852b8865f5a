// The four filter compilers by code and mask, into a lent slice of eight registers.
#![tactic(auto)]

ghost use Rattle.std.specs.Prelude.{◌≡◌, [], ◌∷◌};
ghost use Rattle.laws.specs.Row.{bit};
ghost use Rattle.filter_compilers.specs.Table.{single_standard, single_extended, dual_standard, dual_extended};
ghost use Rattle.filter_types.specs.Answers.{code_mask_of};
ghost use Rattle.abi_answers.specs.Answers.{answer_of, delivering, delivery_leaves};

use abi_answers::Answer;
use filter_types::{
    DualExtendedFilter, DualStandardFilter, SingleExtendedFilter, SingleStandardFilter,
};
use identifiers::{ExtendedId, StandardId};

#[unsafe(no_mangle)]
pub extern "C" fn chherbolat_single_standard_filter_new_from_code_mask(
    id_code: u16,
    id_mask: u16,
    rtr_code: bool,
    rtr_mask: bool,
    first_code: u8,
    second_code: u8,
    first_mask: u8,
    second_mask: u8,
    registers: &mut [u8],
) -> Answer
    ensures value { result ≡ answer_of (delivering 8 8 registers.old (code_mask_of single_standard (id_code ∷ bit rtr_code ∷ first_code ∷ second_code ∷ []) (id_mask ∷ bit rtr_mask ∷ first_mask ∷ second_mask ∷ []))) }
    ensures registers_after { registers.new ≡ delivery_leaves 8 8 registers.old (code_mask_of single_standard (id_code ∷ bit rtr_code ∷ first_code ∷ second_code ∷ []) (id_mask ∷ bit rtr_mask ∷ first_mask ∷ second_mask ∷ [])) }
{
    abi_answers::deliver_bytes(
        SingleStandardFilter::new_from_code_mask(
            StandardId(id_code),
            StandardId(id_mask),
            rtr_code,
            rtr_mask,
            first_code,
            second_code,
            first_mask,
            second_mask,
        ),
        8,
        registers,
    )
}

#[unsafe(no_mangle)]
pub extern "C" fn chherbolat_single_extended_filter_new_from_code_mask(
    id_code: u32,
    id_mask: u32,
    rtr_code: bool,
    rtr_mask: bool,
    registers: &mut [u8],
) -> Answer
    ensures value { result ≡ answer_of (delivering 8 4 registers.old (code_mask_of single_extended (id_code ∷ bit rtr_code ∷ []) (id_mask ∷ bit rtr_mask ∷ []))) }
    ensures registers_after { registers.new ≡ delivery_leaves 8 4 registers.old (code_mask_of single_extended (id_code ∷ bit rtr_code ∷ []) (id_mask ∷ bit rtr_mask ∷ [])) }
{
    abi_answers::deliver_bytes(
        SingleExtendedFilter::new_from_code_mask(
            ExtendedId(id_code),
            ExtendedId(id_mask),
            rtr_code,
            rtr_mask,
        ),
        4,
        registers,
    )
}

#[unsafe(no_mangle)]
pub extern "C" fn chherbolat_dual_standard_filter_new_from_code_mask(
    first_id_code: u16,
    first_id_mask: u16,
    first_rtr_code: bool,
    first_rtr_mask: bool,
    first_payload_code: u8,
    first_payload_mask: u8,
    second_id_code: u16,
    second_id_mask: u16,
    second_rtr_code: bool,
    second_rtr_mask: bool,
    registers: &mut [u8],
) -> Answer
    ensures value { result ≡ answer_of (delivering 8 10 registers.old (code_mask_of dual_standard (first_id_code ∷ bit first_rtr_code ∷ first_payload_code ∷ second_id_code ∷ bit second_rtr_code ∷ []) (first_id_mask ∷ bit first_rtr_mask ∷ first_payload_mask ∷ second_id_mask ∷ bit second_rtr_mask ∷ []))) }
    ensures registers_after { registers.new ≡ delivery_leaves 8 10 registers.old (code_mask_of dual_standard (first_id_code ∷ bit first_rtr_code ∷ first_payload_code ∷ second_id_code ∷ bit second_rtr_code ∷ []) (first_id_mask ∷ bit first_rtr_mask ∷ first_payload_mask ∷ second_id_mask ∷ bit second_rtr_mask ∷ [])) }
{
    abi_answers::deliver_bytes(
        DualStandardFilter::new_from_code_mask(
            StandardId(first_id_code),
            StandardId(first_id_mask),
            first_rtr_code,
            first_rtr_mask,
            first_payload_code,
            first_payload_mask,
            StandardId(second_id_code),
            StandardId(second_id_mask),
            second_rtr_code,
            second_rtr_mask,
        ),
        10,
        registers,
    )
}

#[unsafe(no_mangle)]
pub extern "C" fn chherbolat_dual_extended_filter_new_from_code_mask(
    first_code: u16,
    second_code: u16,
    first_mask: u16,
    second_mask: u16,
    registers: &mut [u8],
) -> Answer
    ensures value { result ≡ answer_of (delivering 8 4 registers.old (code_mask_of dual_extended (first_code ∷ second_code ∷ []) (first_mask ∷ second_mask ∷ []))) }
    ensures registers_after { registers.new ≡ delivery_leaves 8 4 registers.old (code_mask_of dual_extended (first_code ∷ second_code ∷ []) (first_mask ∷ second_mask ∷ [])) }
{
    abi_answers::deliver_bytes(
        DualExtendedFilter::new_from_code_mask(first_code, second_code, first_mask, second_mask),
        4,
        registers,
    )
}
