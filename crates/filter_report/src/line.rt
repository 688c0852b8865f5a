// What a line of a list says.
ghost use Rattle.std.specs.Prelude.{◌≡◌, ◌≤◌, length};
ghost use Rattle.std.specs.List.{prefix_len};
ghost use Rattle.identifiers.specs.Limits.{limit_of};
ghost use Rattle.filter_report.specs.Line.{is_blank, ends as Line·ends, closes as Line·closes, unblanked as Line·unblanked, base_of, number_of, word_of, line_of};

// What is wrong with a line.
#[derive(Clone, Copy, Debug, PartialEq, Eq)]
pub enum Fault {
    Above,
    NotANumber,
}

// How a list is written: in which format its identifiers are, and whether bare numbers are hexadecimal.
#[derive(Clone, Copy, Debug, PartialEq, Eq)]
pub struct Format {
    pub extended: bool,
    pub hex: bool,
}

#[tactic(auto, unfolding(crate::specs::Line::is_blank))]
fn is_blank(character: u8) -> bool
    ensures { result ≡ is_blank character }
{
    matches!(character, b' ' | b'\t' | b'\r')
}

// How many blanks stand in front.
fn blanks(line: &[u8]) -> usize
    ensures value { result ≡ prefix_len is_blank line.now }
    ensures within { result ≤ length line.now }
{
    line.iter().take_while(|c| is_blank(**c)).count()
}

// A line from its first character that is not blank.
#[tactic(auto, using(crate::proofs::Scan::unblanked_at))]
pub(crate) fn unblanked(line: &[u8]) -> &[u8]
    ensures { result.now ≡ Line·unblanked line.now }
{
    &line[blanks(line)..]
}

// Whether a line has nothing more to say.
#[tactic(auto, using(crate::proofs::Scan::ends_is))]
fn ends(line: &[u8]) -> bool
    ensures { result ≡ Line·ends line.now }
{
    matches!(unblanked(line), [] | [b'#', ..])
}

fn base(sixteen: bool) -> u32
    ensures { result ≡ base_of sixteen }
{
    if sixteen { 16 } else { 10 }
}

impl Format {
    // Whether a number may end in front of the rest of a line.
    fn closes(self, rest: &[u8]) -> bool
        ensures { result ≡ Line·closes self.hex rest.now }
    {
        match rest {
            [b'#', ..] => self.hex,
            _ => ends(rest),
        }
    }

    // A number, and nothing more behind it. One that is too long stays above each limit.
    fn number(self, word: &[u8], sixteen: bool) -> Result<u32, Fault>
        ensures { result ≡ number_of (limit_of self.extended) self.hex sixteen word.now }
    {
        let base = base(sixteen);
        let mut n: u32 = 0;
        let mut rest = word;
        while let Some((character, behind)) = rest.split_first() {
            let Some(digit) = char::from(*character).to_digit(base) else {
                break;
            };
            n = n.saturating_mul(base).saturating_add(digit);
            rest = behind;
        }
        if rest.len() == word.len() || !self.closes(rest) {
            return Err(Fault::NotANumber);
        }
        if n > identifiers::limit(self.extended) {
            return Err(Fault::Above);
        }
        Ok(n)
    }

    // A number: hexadecimal behind `0x`, and with `hex` also without.
    fn word(self, word: &[u8]) -> Result<u32, Fault>
        ensures { result ≡ word_of (limit_of self.extended) self.hex word.now }
    {
        match word.strip_prefix(b"0x") {
            Some(digits) => self.number(digits, true),
            None => self.number(word, self.hex),
        }
    }

    // The identifier of a line, where it has one.
    pub(crate) fn read_line(self, line: &[u8]) -> Result<Option<u32>, Fault>
        ensures { result ≡ line_of (limit_of self.extended) self.hex line.now }
    {
        match unblanked(line) {
            [] | [b'#', ..] => Ok(None),
            word => Ok(Some(self.word(word)?)),
        }
    }
}
