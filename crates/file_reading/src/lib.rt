// The frame file's reader: it answers both counts and where each section starts.
#![tactic(auto)]

ghost use Rattle.std.specs.Prelude.{◌≡◌, ◌+◌, ◌<◌, ◌≤◌, IfOk, IfErr};
ghost use Rattle.laws.specs.Said.{gives};
ghost use Rattle.file_reading.specs.Format.{filter_limit, frame_limit, filters_end};
ghost use Rattle.file_reading.specs.Reader.{before, frames_from, frames_at, filters_from, read_of, reading_said};

use refusals::Refusal;

pub const FILTER_LIMIT: usize = 16;

pub const FRAME_LIMIT: usize = 4096;

// A kind and eight registers; a frame.
pub const FILTER_BYTES: usize = 9;

pub const FRAME_BYTES: usize = 13;

// The largest byte that is a kind.
const KIND_LIMIT: u8 = 1;

// How many filters and frames there are, and where the first of each stands.
#[derive(Clone, Copy, Debug, PartialEq, Eq)]
pub struct Sections {
    pub filters: usize,
    pub filters_start: usize,
    pub frames: usize,
    pub frames_start: usize,
}

// A field of so many bytes at a place.
fn field(len: usize, at: usize, bytes: usize) -> Result<(), Refusal>
    requires { (at < 60000) × (bytes < 16) }
    ensures ok { IfOk result (λ _. at + bytes ≤ len) }
    ensures err { IfErr result (λ f. (f ≡ Refusal.FileEnds at) × (len < at + bytes)) }
{
    if len < at + bytes {
        return Err(Refusal::FileEnds(at));
    }
    Ok(())
}

// Each filter's kind and registers.
fn read_filters(file: &[u8], filters: usize) -> Result<(), Refusal>
    requires { filters ≤ filter_limit }
    ensures { before result (frames_at file.now filters (filters_end filters))
        ≡ filters_from file.now filters filters 1 }
{
    let len = file.len();
    for i in 0..filters {
        let at = 1 + FILTER_BYTES * i;
        field(len, at, 1)?;
        if file[at] > KIND_LIMIT {
            return Err(Refusal::FilterKind(at));
        }
        field(len, at + 1, FILTER_BYTES - 1)?;
    }
    Ok(())
}

// The frames, and nothing after them.
fn read_frames(len: usize, frames: usize, start: usize) -> Result<(), Refusal>
    requires { (frames ≤ frame_limit) × (start < 256) × (start ≤ len) }
    ensures { (sections : _) → before result (gives sections) ≡ frames_from len sections frames start }
{
    let end = start + FRAME_BYTES * frames;
    if len < end {
        let whole = (len - start) / FRAME_BYTES;
        return Err(Refusal::FileEnds(start + FRAME_BYTES * whole));
    }
    if len > end {
        return Err(Refusal::BytesAfterEnd(end));
    }
    Ok(())
}

pub fn read_file(file: &[u8]) -> Result<Sections, Refusal>
    ensures { reading_said result ≡ read_of file.now }
{
    let len = file.len();
    field(len, 0, 1)?;
    let filters = usize::from(file[0]);
    if filters > FILTER_LIMIT {
        return Err(Refusal::CountAboveLimit(0));
    }
    read_filters(file, filters)?;
    let at = 1 + FILTER_BYTES * filters;
    field(len, at, 2)?;
    let frames = usize::from(file[at]) * 256 + usize::from(file[at + 1]);
    if frames > FRAME_LIMIT {
        return Err(Refusal::CountAboveLimit(at));
    }
    let frames_start = at + 2;
    read_frames(len, frames, frames_start)?;
    Ok(Sections {
        filters,
        filters_start: 1,
        frames,
        frames_start,
    })
}
