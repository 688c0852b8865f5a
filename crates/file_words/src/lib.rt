// Why a frame file is refused, in words, in a lent output; nothing where it is read.
#![tactic(auto)]

ghost use Rattle.std.specs.Prelude.{◌≡◌, ◌++◌, [], ◌+◌, ◌<◌, ◌≤◌, length, get_or};
ghost use Rattle.laws.specs.Laid.{laying, written};
ghost use Rattle.refusals.specs.Table.{number_of, carried_of, in_one};
ghost use Rattle.text.specs.Laying.{laying_said};
ghost use Rattle.file_reading.specs.Format.{count_at};
ghost use Rattle.file_words.specs.Words.{around, count_words, refusal_words, words_of};

use file_reading::{FILTER_LIMIT, FRAME_LIMIT};
use refusals::Refusal;
use text::Page;

// 0 past the end.
fn byte_at(file: &[u8], at: usize) -> usize
    ensures { (result ≡ get_or file.now at 0) × (result < 256) }
{
    usize::from(file.get(at).copied().unwrap_or(0))
}

fn count_at(file: &[u8], at: usize) -> usize
    ensures { result ≡ count_at file.now at }
{
    if at >= file.len() {
        return 0;
    }
    byte_at(file, at) * 256 + byte_at(file, at + 1)
}

// A number between two texts, behind all that stands on the page.
fn put_number(page: &mut Page<128>, before: &[u8], n: usize, behind: &[u8])
    requires { length page.old + length before.now + length behind.now + 20 ≤ 128 }
    ensures { page.new ≡ page.old ++ around before.now n behind.now }
{
    page.add(before);
    page.add_decimal(n);
    page.add(behind);
}

// Two numbers, each between two texts.
fn put_numbers(
    page: &mut Page<128>,
    before: &[u8],
    n: usize,
    between: &[u8],
    m: usize,
    behind: &[u8],
)
    requires { (page.old ≡ []) × (length before.now + length between.now + length behind.now ≤ 88) }
    ensures { page.new ≡ around before.now n (around between.now m behind.now) }
{
    put_number(page, before, n, between);
    put_number(page, b"", m, behind);
}

fn put_count(page: &mut Page<128>, file: &[u8], at: usize)
    requires { page.old ≡ [] }
    ensures { page.new ≡ count_words file.now at }
{
    if at == 0 {
        put_numbers(
            page,
            b"",
            byte_at(file, 0),
            b" filters announced, at most ",
            FILTER_LIMIT,
            b"; is this a frame file?\n",
        );
    } else {
        put_numbers(
            page,
            b"",
            count_at(file, at),
            b" frames announced, at most ",
            FRAME_LIMIT,
            b"\n",
        );
    }
}

// The words for a refusal of the reader.
fn put_refusal(page: &mut Page<128>, file: &[u8], refusal: Refusal)
    requires { page.old ≡ [] }
    ensures { page.new ≡ refusal_words file.now (number_of refusal) (in_one (carried_of refusal)) }
{
    match refusal {
        Refusal::FilterKind(at) => put_numbers(
            page,
            b"the filter at byte ",
            at,
            b" is of kind ",
            byte_at(file, at),
            b"; a kind is 0 (single) or 1 (dual)\n",
        ),
        Refusal::FileEnds(at) => put_numbers(
            page,
            b"the file's length is ",
            file.len(),
            b", too short for the field that begins at byte ",
            at,
            b"\n",
        ),
        Refusal::CountAboveLimit(at) => put_count(page, file, at),
        end => put_number(
            page,
            b"by its counts the file has ",
            end.carried() as usize,
            b" bytes, but more follow\n",
        ),
    }
}

pub fn words(file: &[u8], out: &mut [u8]) -> Result<usize, Refusal>
    ensures result_value { laying_said result ≡ laying (words_of file.now) out.old }
    ensures out_after { out.new ≡ written (laying (words_of file.now) out.old) (words_of file.now) out.old }
{
    match file_reading::read_file(file) {
        Ok(_) => text::lay(b"", out),
        Err(refusal) => {
            let mut page = Page::new();
            put_refusal(&mut page, file, refusal);
            text::lay(page.as_slice(), out)
        }
    }
}
