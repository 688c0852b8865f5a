// The report on a frame file: the text that the program prints for it, in a lent output.
#![tactic(auto)]

ghost use Rattle.std.specs.Prelude.{◌≡◌, ◌∷◌, [], ◌++◌, ◌+◌, ◌*◌, ◌<◌, ◌≤◌, length, take, get_or, IfOk, IfErr};
ghost use Rattle.laws.specs.Ascii.{ascii};
ghost use Rattle.laws.specs.Said.{gives};
ghost use Rattle.laws.specs.Tabulate.{Bytes};
ghost use Rattle.laws.specs.Laid.{laid_first, laid, laying, written};
ghost use Rattle.refusals.specs.Table.{number_of, carried_of, in_one};
ghost use Rattle.text.specs.Laying.{laying_said};
ghost use Rattle.file_reading.specs.Format.{filter_bytes};
ghost use Rattle.file_reading.specs.Reader.{read_of};
ghost use Rattle.filter_matcher.specs.Shown.{show_of};
ghost use Rattle.file_report.specs.Text.{mark_of, marks_of, any, lines_from, count_of, good_text, bad_text, text_of};
ghost use Rattle.file_report.specs.Length.{lines_length, width_of};
ghost use Rattle.file_report.specs.Held.{held_at, held_of, frame_at, row_at, rows_in};

use file_reading::{FILTER_BYTES, FILTER_LIMIT, FRAME_BYTES, Sections};
use filter_matcher::shown::Shown;
use filter_matcher::{Filter, Kind};
use refusals::Refusal;
use text::Page;

fn filter_at(file: &[u8], at: usize) -> Filter
    requires { (at + filter_bytes ≤ length file.now) × (get_or file.now at 0 ≤ 1) }
    ensures { result ≡ held_at file.now at }
{
    Filter {
        kind: Kind::try_from(file[at]).unwrap(),
        code: octets::word_at(file, at + 1),
        mask: octets::word_at(file, at + 5),
    }
}

fn read_filters(file: &[u8], sections: Sections) -> [Filter; FILTER_LIMIT]
    requires { read_of file.now ≡ gives sections }
    ensures { take sections.filters result ≡ held_of file.now sections }
{
    let blank = Filter {
        kind: Kind::Single,
        code: 0,
        mask: 0,
    };
    let mut held = [blank; FILTER_LIMIT];
    for i in 0..sections.filters {
        held[i] = filter_at(file, sections.filters_start + FILTER_BYTES * i);
    }
    held
}

fn mark(accepted: bool) -> u8
    ensures { result ∷ [] ≡ mark_of accepted }
{
    if accepted { b'1' } else { b'0' }
}

// A file that was read, and its filters.
#[derive(Clone, Copy)]
struct FrameFile<'a> {
    bytes: &'a [u8],
    sections: Sections,
    filters: &'a [Filter],
    ghost are_bytes: { Bytes bytes.now },
    ghost is_read: { read_of bytes.now ≡ gives sections },
    ghost are_held: { filters.now ≡ held_of bytes.now sections },
}

impl<'a> FrameFile<'a> {
    // What a frame shows.
    fn shown(&self, index: usize) -> Shown
        requires { index < self.now.sections.frames }
        ensures { result ≡ show_of (frame_at self.now.bytes.now self.now.sections index) }
    {
        let at = self.sections.frames_start + FRAME_BYTES * index;
        filter_matcher::shown::show(&octets::array_at(self.bytes, at))
    }

    // Whether some filter accepts a frame.
    fn is_accepted(&self, index: usize) -> bool
        requires { index < self.now.sections.frames }
        ensures { result ≡ any (row_at self.now.bytes.now self.now.sections index) }
    {
        let shown = self.shown(index);
        self.filters.iter().any(|filter| filter.accepts(shown))
    }

    // A mark for each filter, or a dash, and a newline; and whether some filter accepts the frame.
    fn put_marks(&self, index: usize, out: &mut [u8], at: usize) -> bool
        requires { (index < self.now.sections.frames)
            × (at + width_of self.now.sections.filters + 1 ≤ length out.old) }
        ensures { (result ≡ any (row_at self.now.bytes.now self.now.sections index))
            × (out.new
            ≡ laid at (marks_of (row_at self.now.bytes.now self.now.sections index) ++ ascii "\n") out.old) }
    {
        if self.filters.is_empty() {
            out[at] = b'-';
            out[at + 1] = b'\n';
            return false;
        }
        let shown = self.shown(index);
        let mut any = false;
        for (i, filter) in self.filters.iter().enumerate() {
            let accepted = filter.accepts(shown);
            out[at + i] = mark(accepted);
            any |= accepted;
        }
        out[at + self.filters.len()] = b'\n';
        any
    }

    // A line for each frame, and how many frames some filter accepts.
    fn put_lines(&self, out: &mut [u8]) -> usize
        requires { lines_length self.now.sections.filters self.now.sections.frames ≤ length out.old }
        ensures { (result ≡ count_of (rows_in self.now.bytes.now self.now.sections))
            × (out.new ≡ laid 0 (lines_from 0 (rows_in self.now.bytes.now self.now.sections)) out.old) }
    {
        let width = self.width();
        let mut at = 0;
        let mut count = 0;
        for index in 0..self.sections.frames {
            let space = text::put_decimal(out, at, index);
            out[space] = b' ';
            let any = self.put_marks(index, out, space + 1);
            at = space + width + 2;
            count += usize::from(any);
        }
        count
    }

    fn width(&self) -> usize
        ensures { (result ≡ width_of self.now.sections.filters) × (result ≤ 16) }
    {
        self.filters.len().max(1)
    }

    fn lines_length(&self) -> usize
        ensures { (result ≡ lines_length self.now.sections.filters self.now.sections.frames)
            × (result ≤ 1000 * self.now.sections.frames) }
    {
        let width = self.width();
        let mut length = 0;
        for index in 0..self.sections.frames {
            length += text::digits(index) + 2 + width;
        }
        length
    }

    // How many frames some filter accepts.
    fn accepted(&self) -> usize
        ensures { result ≡ count_of (rows_in self.now.bytes.now self.now.sections) }
    {
        let mut count = 0;
        for index in 0..self.sections.frames {
            count += usize::from(self.is_accepted(index));
        }
        count
    }

    // Where there is room for any count of frames, they are not matched.
    fn judge(&self, lines: usize, room: usize) -> Result<(), Refusal>
        requires { (lines ≡ lines_length self.now.sections.filters self.now.sections.frames)
            × (lines ≤ 1000 * self.now.sections.frames) }
        ensures ok { IfOk result (λ _. length (text_of self.now.bytes.now) ≤ room) }
        ensures err { IfErr result (λ refusal. (refusal ≡ Refusal.OutputTooShort (length (text_of self.now.bytes.now)))
            × (room < length (text_of self.now.bytes.now))) }
    {
        if lines + 14 <= room {
            return Ok(());
        }
        let needed = lines + 9 + text::digits(self.accepted()) + 1;
        if room < needed {
            return Err(Refusal::OutputTooShort(needed));
        }
        Ok(())
    }

    // The whole text, and its length.
    fn put(&self, lines: usize, out: &mut [u8]) -> usize
        requires { (lines ≡ lines_length self.now.sections.filters self.now.sections.frames)
            × (length (text_of self.now.bytes.now) ≤ length out.old) }
        ensures { (result ≡ length (text_of self.now.bytes.now))
            × (out.new ≡ laid_first (text_of self.now.bytes.now) out.old) }
    {
        let count = self.put_lines(out);
        let number = text::put_text(out, lines, b"accepted ");
        let newline = text::put_decimal(out, number, count);
        out[newline] = b'\n';
        newline + 1
    }

    fn lay(&self, out: &mut [u8]) -> Result<usize, Refusal>
        ensures { (laying_said result ≡ laying (text_of self.now.bytes.now) out.old)
            × (out.new ≡ written (laying (text_of self.now.bytes.now) out.old) (text_of self.now.bytes.now) out.old) }
    {
        let lines = self.lines_length();
        self.judge(lines, out.len())?;
        Ok(self.put(lines, out))
    }
}

fn report_bad(refusal: Refusal, out: &mut [u8]) -> Result<usize, Refusal>
    ensures { let text = bad_text (number_of refusal) (in_one (carried_of refusal)) in
        (laying_said result ≡ laying text out.old) × (out.new ≡ written (laying text out.old) text out.old) }
{
    let mut page: Page<53> = Page::new();
    page.add(b"refused ");
    page.add_decimal(refusal.number() as usize);
    page.add(b" at ");
    page.add_decimal(refusal.carried() as usize);
    page.add(b"\n");
    text::lay(page.as_slice(), out)
}

pub fn report(file: &[u8], out: &mut [u8]) -> Result<usize, Refusal>
    ensures result_value { laying_said result ≡ laying (text_of file.now) out.old }
    ensures out_after { out.new ≡ written (laying (text_of file.now) out.old) (text_of file.now) out.old }
{
    match file_reading::read_file(file) {
        Ok(sections) => {
            let held = read_filters(file, sections);
            let filters = &held[..sections.filters];
            let frame_file = FrameFile {
                bytes: file,
                sections,
                filters,
            };
            frame_file.lay(out)
        }
        Err(refusal) => report_bad(refusal, out),
    }
}
