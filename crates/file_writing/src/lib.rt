// The frame file's writer: it lays each section into the rest of the output that it is lent.
#![tactic(auto)]

ghost use Rattle.std.specs.Prelude.{◌≡◌, ◌+◌, ◌/◌, ◌<◌, ◌≤◌, length, MatchOption};
ghost use Rattle.laws.specs.Laid.{laid_first};
ghost use Rattle.file_reading.specs.Format.{filter_bytes, frame_bytes, filter_limit, frame_limit};
ghost use Rattle.file_writing.specs.Writer.{filter_count, frames_part, file_of, bad_kind, write_of, leaves, writing_said};

use file_reading::{FILTER_BYTES, FILTER_LIMIT, FRAME_BYTES, FRAME_LIMIT};
use refusals::Refusal;

// The first filter whose kind is not 0 or 1.
fn first_bad_kind(filters: &[u8]) -> Option<usize>
    ensures { MatchOption result (filter_count filters.now ≤ bad_kind filters.now)
        (λ index. (index ≡ bad_kind filters.now) × (index < filter_count filters.now)) }
{
    for index in 0..filters.len() / FILTER_BYTES {
        if filters[FILTER_BYTES * index] > 1 {
            return Some(index);
        }
    }
    None
}

// The length of the file.
#[tactic(auto, unfolding(crate::specs::Writer::write_of))]
fn judge(filters: &[u8], frames: &[u8], room: usize) -> Result<usize, Refusal>
    ensures { writing_said result ≡ write_of filters.now frames.now room }
{
    if filters.len() % FILTER_BYTES > 0 {
        return Err(Refusal::WrongLength(0));
    }
    if frames.len() % FRAME_BYTES > 0 {
        return Err(Refusal::WrongLength(1));
    }
    if filters.len() / FILTER_BYTES > FILTER_LIMIT {
        return Err(Refusal::CountAboveLimit(0));
    }
    if frames.len() / FRAME_BYTES > FRAME_LIMIT {
        return Err(Refusal::CountAboveLimit(1));
    }
    if let Some(index) = first_bad_kind(filters) {
        return Err(Refusal::FilterKind(index));
    }
    let needed = 3 + filters.len() + frames.len();
    if room < needed {
        return Err(Refusal::OutputTooShort(needed));
    }
    Ok(needed)
}

// The filters, into the output after their count.
fn write_filters(filters: &[u8], rest: &mut [u8])
    requires { length filters.now ≤ length rest.old }
    ensures { rest.new ≡ laid_first filters.now rest.old }
{
    text::put_text(rest, 0, filters);
}

// The frame count and the frames, into the output after the filters.
fn write_frames(frames: &[u8], rest: &mut [u8])
    requires { (2 + length frames.now ≤ length rest.old) × (length frames.now / frame_bytes ≤ frame_limit) }
    ensures { rest.new ≡ laid_first (frames_part frames.now) rest.old }
{
    let count = frames.len() / FRAME_BYTES;
    rest[0] = (count / 256) as u8;
    rest[1] = (count % 256) as u8;
    text::put_text(rest, 2, frames);
}

fn write_sections(filters: &[u8], frames: &[u8], out: &mut [u8])
    requires { (3 + length filters.now + length frames.now ≤ length out.old)
        × (length filters.now / filter_bytes ≤ filter_limit)
        × (length frames.now / frame_bytes ≤ frame_limit) }
    ensures { out.new ≡ laid_first (file_of filters.now frames.now) out.old }
{
    out[0] = (filters.len() / FILTER_BYTES) as u8;
    write_filters(filters, &mut out[1..]);
    let end = 1 + filters.len();
    write_frames(frames, &mut out[end..]);
}

pub fn write_file(filters: &[u8], frames: &[u8], out: &mut [u8]) -> Result<usize, Refusal>
    ensures result_value { writing_said result ≡ write_of filters.now frames.now (length out.old) }
    ensures out_after { out.new ≡ leaves filters.now frames.now out.old }
{
    let length = judge(filters, frames, out.len())?;
    write_sections(filters, frames, out);
    Ok(length)
}
