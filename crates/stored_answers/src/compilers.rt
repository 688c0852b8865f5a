// The stored answers of the four filter compilers beside ours. A line's first byte says which compiler, from 0.
use crate::stored_text::Columns;
use abi_answers::Answer;

#[derive(Clone, Copy, Debug, PartialEq, Eq)]
enum Compiler {
    SingleStandard,
    SingleExtended,
    DualStandard,
    DualExtended,
}

impl TryFrom<u8> for Compiler {
    type Error = u8;

    fn try_from(kind: u8) -> Result<Compiler, u8> {
        match kind {
            0 => Ok(Compiler::SingleStandard),
            1 => Ok(Compiler::SingleExtended),
            2 => Ok(Compiler::DualStandard),
            3 => Ok(Compiler::DualExtended),
            _ => Err(kind),
        }
    }
}

// What each byte of the lent registers is before a call.
const LENT: [u8; 8] = [0xA5; 8];

pub(crate) fn by_patterns(columns: &mut Columns<'_>) -> bool {
    let Ok(compiler) = Compiler::try_from(columns.byte()) else {
        return false;
    };
    let mut registers = LENT;
    let answer = match compiler {
        Compiler::SingleStandard => abi_filters::chherbolat_single_standard_filter_new(
            columns.pattern(),
            columns.pattern(),
            columns.pattern(),
            columns.pattern(),
            &mut registers,
        ),
        Compiler::SingleExtended => abi_filters::chherbolat_single_extended_filter_new(
            columns.pattern(),
            columns.pattern(),
            &mut registers,
        ),
        Compiler::DualStandard => abi_filters::chherbolat_dual_standard_filter_new(
            columns.pattern(),
            columns.pattern(),
            columns.pattern(),
            columns.pattern(),
            columns.pattern(),
            &mut registers,
        ),
        Compiler::DualExtended => abi_filters::chherbolat_dual_extended_filter_new(
            columns.pattern(),
            columns.pattern(),
            &mut registers,
        ),
    };
    columns.leaves(answer, &registers)
}

fn single_standard(columns: &mut Columns<'_>, registers: &mut [u8]) -> Answer {
    abi_masks::chherbolat_single_standard_filter_new_from_code_mask(
        columns.short(),
        columns.short(),
        columns.flag(),
        columns.flag(),
        columns.byte(),
        columns.byte(),
        columns.byte(),
        columns.byte(),
        registers,
    )
}

fn dual_standard(columns: &mut Columns<'_>, registers: &mut [u8]) -> Answer {
    abi_masks::chherbolat_dual_standard_filter_new_from_code_mask(
        columns.short(),
        columns.short(),
        columns.flag(),
        columns.flag(),
        columns.byte(),
        columns.byte(),
        columns.short(),
        columns.short(),
        columns.flag(),
        columns.flag(),
        registers,
    )
}

pub(crate) fn by_code_and_mask(columns: &mut Columns<'_>) -> bool {
    let Ok(compiler) = Compiler::try_from(columns.byte()) else {
        return false;
    };
    let mut registers = LENT;
    let answer = match compiler {
        Compiler::SingleStandard => single_standard(columns, &mut registers),
        Compiler::SingleExtended => abi_masks::chherbolat_single_extended_filter_new_from_code_mask(
            columns.long(),
            columns.long(),
            columns.flag(),
            columns.flag(),
            &mut registers,
        ),
        Compiler::DualStandard => dual_standard(columns, &mut registers),
        Compiler::DualExtended => abi_masks::chherbolat_dual_extended_filter_new_from_code_mask(
            columns.short(),
            columns.short(),
            columns.short(),
            columns.short(),
            &mut registers,
        ),
    };
    columns.leaves(answer, &registers)
}
