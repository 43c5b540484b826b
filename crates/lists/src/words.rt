// Words of a text: where they start and end, and the numbers that they stand for.
ghost use Rattle.std.specs.Prelude.{◌≡◌, ◌+◌, length, drop, position};
ghost use Rattle.lists.specs.Words.{is_blank, is_mark, before, number_of};

use crate::fault::Fault;

// The bytes that a search stops at: `Word` is any byte but a blank.
#[derive(Clone, Copy, Debug, PartialEq, Eq)]
pub enum Mark {
    LineEnd,
    Comment,
    Return,
    Hyphen,
    Blank,
    Word,
}

fn is_blank(byte: u8) -> bool
    ensures { result ≡ is_blank byte }
{
    matches!(byte, b' ' | b'\t' | b'\r')
}

fn is_mark(mark: Mark, byte: u8) -> bool
    ensures { result ≡ is_mark mark byte }
{
    match mark {
        Mark::LineEnd => byte == b'\n',
        Mark::Comment => byte == b'#',
        Mark::Return => byte == b'\r',
        Mark::Hyphen => byte == b'-',
        Mark::Blank => is_blank(byte),
        Mark::Word => !is_blank(byte),
    }
}

// The first place with such a byte.
fn first(mark: Mark, text: &[u8]) -> Option<usize>
    ensures { result ≡ position (is_mark mark) text.now }
{
    text.iter().position(|byte| is_mark(mark, *byte))
}

// The first place from `from` on with such a byte, or the text's length. No entry.
pub fn find(mark: Mark, text: &[u8], from: usize) -> usize
    ensures { result ≡ from + length (before (is_mark mark) (drop from text.now)) }
{
    match text.get(from..) {
        Some(rest) => from + first(mark, rest).unwrap_or(rest.len()),
        None => from,
    }
}

// A word as a number of at most `limit`; `place` is the word's in its line, `told` the limit that is told of a larger number. No entry.
pub fn read_number(word: &[u8], place: u8, told: u16, limit: u16) -> Result<u16, Fault>
    ensures { result ≡ number_of place told limit word.now }
{
    let mut value: u32 = 0;
    for byte in word {
        if !byte.is_ascii_digit() {
            return Err(Fault::NotANumber(place));
        }
        // Past the limit it does not matter by how much.
        value = (value * 10 + (*byte - b'0') as u32).min(limit as u32 + 1);
    }
    if (limit as u32) < value {
        return Err(Fault::TooLarge(place, told));
    }
    Ok(value as u16)
}
