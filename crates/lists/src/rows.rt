// Texts of rows: job lists, configurations and kernel records, line by line.
ghost use Rattle.std.specs.Prelude.{◌≡◌, ℕ, ◌+◌, ◌≤◌, length, drop};
ghost use Rattle.lists.specs.Words.{words};
ghost use Rattle.lists.specs.Rows.{says_range, says_placed, words_line, plain_line, lone_return, read_line, with_row, with_range, with_line, mark_size, rows_in, line_outcome, rows_outcome, given, read_text};

use crate::fault::Fault;
use crate::fields::{Form, Row};
use crate::words::Mark;
use crate::{fields, words};
use records::job::Job;
use same_bytes::same_bytes;

// The range that a text says: the lowest and the highest quantum.
#[derive(Clone, Copy, Debug, PartialEq, Eq)]
pub struct SaidRange {
    pub low: u16,
    pub high: u16,
}

// What a line holds.
#[derive(Clone, Copy, Debug, PartialEq, Eq)]
pub enum Line {
    Skipped,
    Found(Row),
    RangeOf(SaidRange),
}

// The first faulty line of a text, counted from 1, and what is wrong with it.
#[derive(Clone, Copy, Debug, PartialEq, Eq)]
pub struct FaultyLine {
    pub line: usize,
    pub fault: Fault,
}

// The rows of a text, each with the number of its line, and the range that it says. Memory is fixed, so a count says how many entries of a
// table are used. Rows and numbers are two tables, since they part: the rows become records, and the numbers name these.
#[derive(Clone, Copy)]
pub struct RowsRead {
    pub count: usize,
    pub rows: [Row; Job::MOST],
    pub at: [usize; Job::MOST],
    pub range: Option<SaidRange>,
}

impl Form {
    // Whether this first word begins a line that says a range.
    fn says_range(self, word: &[u8]) -> bool
        ensures { result ≡ says_range self word.now }
    {
        match self {
            Form::Job => same_bytes(word, b"quanta"),
            Form::Setting | Form::Kernel | Form::Quanta => false,
        }
    }

    // Whether this first word begins the last line of a key; a method of its own, as the definition is.
    fn says_placed(self, word: &[u8]) -> bool
        ensures { result ≡ says_placed self word.now }
    {
        match self {
            Form::Setting => same_bytes(word, b"placed"),
            Form::Job | Form::Kernel | Form::Quanta => false,
        }
    }
}

// A line without its comment.
fn read_content(form: Form, content: &[u8]) -> Result<Line, Fault>
    ensures { result ≡ words_line form (words content.now) }
{
    let start = words::find(Mark::Word, content, 0);
    if start == content.len() {
        return Ok(Line::Skipped);
    }
    let end = words::find(Mark::Blank, content, start);
    if form.says_range(&content[start..end]) {
        let row = fields::read_fields(Form::Quanta, content, end)?;
        return Ok(Line::RangeOf(SaidRange {
            low: row.first,
            high: row.second,
        }));
    }
    if form.says_placed(&content[start..end]) {
        return Ok(Line::Skipped);
    }
    let row = fields::read_fields(form, content, 0)?;
    Ok(Line::Found(row))
}

#[tactic(auto, unfolding(crate::specs::Rows::plain_line))]
fn read_plain(form: Form, line: &[u8]) -> Result<Line, Fault>
    ensures { result ≡ plain_line form line.now }
{
    let end = words::find(Mark::Comment, line, 0);
    read_content(form, &line[..end])
}

// Whether a carriage return stands before the last byte of a line.
fn has_lone_return(line: &[u8]) -> bool
    ensures { result ≡ lone_return line.now }
{
    let at = words::find(Mark::Return, line, 0);
    at + 1 < line.len()
}

#[tactic(auto, unfolding(crate::specs::Rows::read_line))]
fn read_line(form: Form, line: &[u8]) -> Result<Line, Fault>
    ensures { result ≡ read_line form line.now }
{
    if has_lone_return(line) {
        return Err(Fault::LoneReturn);
    }
    read_plain(form, line)
}

impl RowsRead {
    // Before the first line.
    pub const NONE: RowsRead = RowsRead {
        count: 0,
        rows: [Row::BLANK; Job::MOST],
        at: [0; Job::MOST],
        range: None,
    };

    // Takes one row more, from a line with this number.
    fn put_row(&mut self, number: usize, row: Row) -> Result<(), Fault>
        ensures { line_outcome number self.new result ≡ with_row number row (rows_in self.old) }
    {
        if Job::MOST <= self.count {
            return Err(Fault::TooMany);
        }
        self.rows[self.count] = row;
        self.at[self.count] = number;
        self.count += 1;
        Ok(())
    }

    // Takes the range, from a line with this number.
    fn put_range(&mut self, range: SaidRange) -> Result<(), Fault>
        ensures { (number : ℕ) → line_outcome number self.new result ≡ with_range number range.low range.high (rows_in self.old) }
    {
        if self.range.is_some() {
            return Err(Fault::SecondRange);
        }
        self.range = Some(range);
        Ok(())
    }

    // Reads one line more.
    fn take_line(&mut self, form: Form, number: usize, line: &[u8]) -> Result<(), Fault>
        ensures { line_outcome number self.new result ≡ with_line number (read_line form line.now) (given (rows_in self.old)) }
    {
        match read_line(form, line)? {
            Line::Skipped => Ok(()),
            Line::Found(row) => self.put_row(number, row),
            Line::RangeOf(range) => self.put_range(range),
        }
    }
}

// The size of the mark that stands before a text, where there is one.
fn mark_size(text: &[u8]) -> usize
    ensures { (result ≡ mark_size text.now) × (result ≤ length text.now) }
{
    if text.starts_with(&[0xEF, 0xBB, 0xBF]) {
        3
    } else {
        0
    }
}

// Reads a text of rows. No entry; it judges the form of each line, and that there are at most eight rows and one range.
pub fn read_rows(form: Form, text: &[u8]) -> Result<RowsRead, FaultyLine>
    ensures { rows_outcome result ≡ read_text form text.now }
{
    let mut read = RowsRead::NONE;
    let mut number = 0;
    for line in text[mark_size(text)..].split(|byte| *byte == b'\n') {
        number += 1;
        if let Err(fault) = read.take_line(form, number, line) {
            return Err(FaultyLine {
                line: number,
                fault,
            });
        }
    }
    Ok(read)
}
