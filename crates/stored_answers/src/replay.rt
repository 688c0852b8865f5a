// Each stored answer of the Rust beside ours. A letter says which function, or functions, a line is about.
use crate::compilers;
use crate::stored_text::{Columns, LONGEST, decode};
use abi_answers::Answer;
use arrayvec::ArrayVec;

fn given(answer: Answer, value: u64) -> bool {
    answer.number == 0 && answer.value == value
}

fn standard_id(columns: &mut Columns<'_>) -> bool {
    let answer = abi_identifiers::chherbolat_standard_id_new(columns.short());
    columns.says(answer)
}

fn extended_id(columns: &mut Columns<'_>) -> bool {
    let answer = abi_identifiers::chherbolat_extended_id_new(columns.long());
    columns.says(answer)
}

fn base_id(columns: &mut Columns<'_>) -> bool {
    let answer = abi_identifiers::chherbolat_extended_id_standard_id(columns.long());
    columns.says(answer)
}

fn new_from_parameters(columns: &mut Columns<'_>) -> bool {
    let extended = columns.flag();
    let id = columns.long();
    let remote = columns.flag();
    let own = columns.flag();
    let dlc = columns.wide() as usize;
    let length = columns.short();
    let data = columns.bytes(length as usize);
    let mut frame = [0xA5u8; 13];
    let answer = abi_building::chherbolat_new_from_parameters(
        extended, id, remote, own, dlc, data, &mut frame,
    );
    columns.leaves(answer, &frame)
}

fn new(own: bool, columns: &mut Columns<'_>) -> bool {
    let extended = columns.flag();
    let id = columns.long();
    let length = columns.short();
    let data = columns.bytes(length as usize);
    let mut frame = [0xA5u8; 13];
    let answer = if own {
        abi_building::chherbolat_new_self_reception(extended, id, data, &mut frame)
    } else {
        abi_building::chherbolat_new(extended, id, data, &mut frame)
    };
    columns.leaves(answer, &frame)
}

// The readers whose answer is one number: a byte each, in the order of their columns, and then the identifier.
fn read_numbers(frame: &[u8], columns: &mut Columns<'_>) -> bool {
    given(
        abi_frame_info::chherbolat_is_extended_format(frame),
        u64::from(columns.byte()),
    ) && given(
        abi_frame_info::chherbolat_is_remote_request(frame),
        u64::from(columns.byte()),
    ) && given(
        abi_frame_info::chherbolat_is_self_reception(frame),
        u64::from(columns.byte()),
    ) && given(
        abi_frame_info::chherbolat_data_length_code(frame),
        u64::from(columns.byte()),
    ) && given(
        abi_frame_info::chherbolat_data_length(frame),
        u64::from(columns.byte()),
    ) && given(
        abi_frame_info::chherbolat_data_offset(frame),
        u64::from(columns.byte()),
    ) && given(
        abi_frames::chherbolat_identifier(frame),
        u64::from(columns.long()),
    )
}

fn lays(answer: Answer, out: &[u8], stored: &[u8]) -> bool {
    given(answer, stored.len() as u64) && out.starts_with(stored)
}

// The bytes in use are the frame's own first bytes.
fn read_parts(frame: &[u8], columns: &mut Columns<'_>) -> bool {
    let in_use = Columns { rest: frame }.bytes(columns.byte() as usize);
    let mut data = [0u8; 13];
    let taken = abi_frames::chherbolat_data(frame, &mut data);
    let mut used = [0u8; 13];
    let all = abi_frames::chherbolat_as_slice(frame, &mut used);
    lays(taken, &data, columns.rest) && lays(all, &used, in_use)
}

fn read(columns: &mut Columns<'_>) -> bool {
    let frame = columns.bytes(13);
    read_numbers(frame, columns) && read_parts(frame, columns)
}

fn matched(columns: &mut Columns<'_>) -> bool {
    let kind = columns.byte();
    let registers = columns.bytes(8);
    let frame = columns.bytes(13);
    let answer = abi_matcher::chherbolat_matcher_accepts(kind, registers, frame);
    columns.says(answer)
}

fn decided(columns: &mut Columns<'_>) -> bool {
    let which = columns.byte();
    let status = columns.long();
    let passive = columns.flag();
    let flight = columns.flag();
    let answer = match which {
        0 => abi_decisions::chherbolat_transmit(status, passive),
        1 => abi_decisions::chherbolat_poll(status, passive, flight),
        _ => abi_decisions::chherbolat_receive(status),
    };
    columns.says(answer)
}

// Whether a line's answer is ours too.
fn agrees(line: &[u8]) -> bool {
    let bytes = decode(line);
    let columns = &mut Columns { rest: &bytes };
    match line.first() {
        Some(b's') => standard_id(columns),
        Some(b'e') => extended_id(columns),
        Some(b't') => base_id(columns),
        Some(b'b') => new_from_parameters(columns),
        Some(b'n') => new(false, columns),
        Some(b'm') => new(true, columns),
        Some(b'r') => read(columns),
        Some(b'p') => compilers::by_patterns(columns),
        Some(b'c') => compilers::by_code_and_mask(columns),
        Some(b'a') => matched(columns),
        Some(b'd') => decided(columns),
        _ => false,
    }
}

// How far the replay is: the line so far, and what was counted.
#[derive(Drop)]
pub(crate) struct Replay {
    line: ArrayVec<u8, LONGEST>,
    pub(crate) answers: u64,
    pub(crate) differ: u64,
}

impl Replay {
    pub(crate) fn new() -> Replay {
        Replay {
            line: ArrayVec::new(),
            answers: 0,
            differ: 0,
        }
    }

    fn count_line(&mut self) {
        if self.line.starts_with(b"#") {
            return;
        }
        self.answers = self.answers.wrapping_add(1);
        if !agrees(&self.line) {
            self.differ = self.differ.wrapping_add(1);
        }
    }

    // What is read next; a line may begin in one text and end in another.
    pub(crate) fn read(&mut self, text: &[u8]) {
        for piece in text.split_inclusive(|byte| *byte == b'\n') {
            for byte in piece {
                let _ = self.line.try_push(*byte);
            }
            if piece.ends_with(b"\n") {
                self.count_line();
                self.line.clear();
            }
        }
    }
}
