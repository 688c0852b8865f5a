// Filters: the acceptance registers of the four filters, from patterns and from code and mask.
#![tactic(auto)]

ghost use Rattle.std.specs.Prelude.{◌≡◌, ◌∷◌, [], ℕ, ◌<◌, cond, ◌&&◌};
ghost use Rattle.laws.specs.Row.{bit};
ghost use Rattle.laws.specs.Said.{gives, refuses};
ghost use Rattle.refusals.specs.Table.{answer_said};
ghost use Rattle.identifiers.specs.Limits.{within_limit};
ghost use Rattle.filter_registers.specs.Answers.{compiled_said};
ghost use Rattle.filter_compilers.specs.Table.{single_standard, single_extended, dual_standard, dual_extended, fields_of};
ghost use Rattle.filter_compilers.specs.Answers.{compile_of};
ghost use Rattle.filter_types.specs.Words.{laid_of};
ghost use Rattle.filter_types.specs.Answers.{code_mask_of};

use identifiers::{ExtendedId, Id, StandardId};
use refusals::Refusal;

fn single_standard_word(id: StandardId, rtr: bool, first: u8, second: u8) -> u32
    requires { id.0 < 2048 }
    ensures { result ≡ laid_of (fields_of single_standard) (id.0 ∷ bit rtr ∷ first ∷ second ∷ []) }
{
    (u32::from(id.0) << 21) + (u32::from(rtr) << 20) + (u32::from(first) << 8) + u32::from(second)
}

fn single_extended_word(id: ExtendedId, rtr: bool) -> u32
    requires { id.0 < 0x2000_0000 }
    ensures { result ≡ laid_of (fields_of single_extended) (id.0 ∷ bit rtr ∷ []) }
{
    (id.0 << 3) + (u32::from(rtr) << 2)
}

fn dual_standard_word(
    first: StandardId,
    first_rtr: bool,
    payload: u8,
    second: StandardId,
    second_rtr: bool,
) -> u32
    requires { (first.0 < 2048) × (second.0 < 2048) }
    ensures { result ≡ laid_of (fields_of dual_standard) (first.0 ∷ bit first_rtr ∷ payload ∷ second.0 ∷ bit second_rtr ∷ []) }
{
    let high = u32::from(payload) / 16;
    let low = u32::from(payload) % 16;
    let upper = (u32::from(first.0) << 21) + (u32::from(first_rtr) << 20) + (high << 16);
    let lower = (u32::from(second.0) << 5) + (u32::from(second_rtr) << 4) + low;
    upper + lower
}

fn dual_extended_word(first: u16, second: u16) -> u32
    ensures { result ≡ laid_of (fields_of dual_extended) (first ∷ second ∷ []) }
{
    (u32::from(first) << 16) + u32::from(second)
}

// Refused where the code or the mask of an identifier is above its limit.
fn judge_limits(code: Id, mask: Id) -> Result<(), Refusal>
    ensures { answer_said {B = ℕ} (λ _. 8) result ≡ cond (within_limit code && within_limit mask) (gives 8) (refuses 1 []) }
{
    if code.within_limit() && mask.within_limit() {
        return Ok(());
    }
    Err(Refusal::IdentifierAboveLimit)
}

#[derive(Clone, Copy, Debug, PartialEq, Eq)]
pub struct SingleStandardFilter;

#[derive(Clone, Copy, Debug, PartialEq, Eq)]
pub struct SingleExtendedFilter;

#[derive(Clone, Copy, Debug, PartialEq, Eq)]
pub struct DualStandardFilter;

#[derive(Clone, Copy, Debug, PartialEq, Eq)]
pub struct DualExtendedFilter;

impl SingleStandardFilter {
    pub fn new(id: &[u8], rtr: &[u8], first: &[u8], second: &[u8]) -> Result<[u8; 8], Refusal>
        ensures { compiled_said result ≡ compile_of single_standard (id.now ∷ rtr.now ∷ first.now ∷ second.now ∷ []) }
    {
        filter_compilers::single_standard(id, rtr, first, second)
    }

    pub fn new_from_code_mask(
        id_code: StandardId,
        id_mask: StandardId,
        rtr_code: bool,
        rtr_mask: bool,
        first_code: u8,
        second_code: u8,
        first_mask: u8,
        second_mask: u8,
    ) -> Result<[u8; 8], Refusal>
        ensures { compiled_said result ≡ code_mask_of single_standard
            (id_code.0 ∷ bit rtr_code ∷ first_code ∷ second_code ∷ []) (id_mask.0 ∷ bit rtr_mask ∷ first_mask ∷ second_mask ∷ []) }
    {
        judge_limits(Id::Standard(id_code), Id::Standard(id_mask))?;
        Ok(filter_registers::made(
            single_standard_word(id_code, rtr_code, first_code, second_code),
            single_standard_word(id_mask, rtr_mask, first_mask, second_mask),
        ))
    }
}

impl SingleExtendedFilter {
    pub fn new(id: &[u8], rtr: &[u8]) -> Result<[u8; 8], Refusal>
        ensures { compiled_said result ≡ compile_of single_extended (id.now ∷ rtr.now ∷ []) }
    {
        filter_compilers::single_extended(id, rtr)
    }

    pub fn new_from_code_mask(
        id_code: ExtendedId,
        id_mask: ExtendedId,
        rtr_code: bool,
        rtr_mask: bool,
    ) -> Result<[u8; 8], Refusal>
        ensures { compiled_said result ≡ code_mask_of single_extended
            (id_code.0 ∷ bit rtr_code ∷ []) (id_mask.0 ∷ bit rtr_mask ∷ []) }
    {
        judge_limits(Id::Extended(id_code), Id::Extended(id_mask))?;
        Ok(filter_registers::made(
            single_extended_word(id_code, rtr_code),
            single_extended_word(id_mask, rtr_mask),
        ))
    }
}

impl DualStandardFilter {
    pub fn new(
        first_id: &[u8],
        first_rtr: &[u8],
        first_payload: &[u8],
        second_id: &[u8],
        second_rtr: &[u8],
    ) -> Result<[u8; 8], Refusal>
        ensures { compiled_said result ≡ compile_of dual_standard (first_id.now ∷ first_rtr.now ∷ first_payload.now ∷ second_id.now ∷ second_rtr.now ∷ []) }
    {
        filter_compilers::dual_standard(first_id, first_rtr, first_payload, second_id, second_rtr)
    }

    pub fn new_from_code_mask(
        first_id_code: StandardId,
        first_id_mask: StandardId,
        first_rtr_code: bool,
        first_rtr_mask: bool,
        first_payload_code: u8,
        first_payload_mask: u8,
        second_id_code: StandardId,
        second_id_mask: StandardId,
        second_rtr_code: bool,
        second_rtr_mask: bool,
    ) -> Result<[u8; 8], Refusal>
        ensures { compiled_said result ≡ code_mask_of dual_standard
            (first_id_code.0 ∷ bit first_rtr_code ∷ first_payload_code ∷ second_id_code.0 ∷ bit second_rtr_code ∷ [])
            (first_id_mask.0 ∷ bit first_rtr_mask ∷ first_payload_mask ∷ second_id_mask.0 ∷ bit second_rtr_mask ∷ []) }
    {
        judge_limits(Id::Standard(first_id_code), Id::Standard(first_id_mask))?;
        judge_limits(Id::Standard(second_id_code), Id::Standard(second_id_mask))?;
        Ok(filter_registers::made(
            dual_standard_word(
                first_id_code,
                first_rtr_code,
                first_payload_code,
                second_id_code,
                second_rtr_code,
            ),
            dual_standard_word(
                first_id_mask,
                first_rtr_mask,
                first_payload_mask,
                second_id_mask,
                second_rtr_mask,
            ),
        ))
    }
}

impl DualExtendedFilter {
    pub fn new(first: &[u8], second: &[u8]) -> Result<[u8; 8], Refusal>
        ensures { compiled_said result ≡ compile_of dual_extended (first.now ∷ second.now ∷ []) }
    {
        filter_compilers::dual_extended(first, second)
    }

    pub fn new_from_code_mask(
        first_code: u16,
        second_code: u16,
        first_mask: u16,
        second_mask: u16,
    ) -> Result<[u8; 8], Refusal>
        ensures { compiled_said result ≡ code_mask_of dual_extended (first_code ∷ second_code ∷ []) (first_mask ∷ second_mask ∷ []) }
    {
        Ok(filter_registers::made(
            dual_extended_word(first_code, second_code),
            dual_extended_word(first_mask, second_mask),
        ))
    }
}
