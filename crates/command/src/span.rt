// Ranges of quanta or of priorities: one as a word, two numbers with a hyphen between; and which range of quanta a call has.
ghost use Rattle.std.specs.Prelude.{◌≡◌};
ghost use Rattle.command.specs.Words.{span_of, chosen};

use lists::words;
use lists::words::Mark;

// The lowest and the highest number.
#[derive(Clone, Copy, Debug, PartialEq, Eq)]
pub struct Span {
    pub low: u8,
    pub high: u8,
}

// The lowest and the highest quantum of a call.
pub type Quanta = Span;

// Reads a range, where the word is one. No entry; it judges no more than that each number fits a byte.
pub fn read_span(word: &[u8]) -> Option<Span>
    ensures { result ≡ span_of word.now }
{
    let hyphen = words::find(Mark::Hyphen, word, 0);
    if hyphen == 0 || word.len() <= hyphen + 1 {
        return None;
    }
    let low = words::read_number(&word[..hyphen], 1, 255, 255).ok()?;
    let high = words::read_number(&word[hyphen + 1..], 2, 255, 255).ok()?;
    Some(Span {
        low: (low % 256) as u8,
        high: (high % 256) as u8,
    })
}

// The range of a call: the option's, else the list's, else 1 to 4. No entry.
pub fn choose(option: Option<Quanta>, list: Option<Quanta>) -> Quanta
    ensures { result ≡ chosen option list }
{
    option.or(list).unwrap_or(Quanta { low: 1, high: 4 })
}
