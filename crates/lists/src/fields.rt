// The fields of a line: as many numbers as its form has, each up to its limit; a policy may have its name, and that of a kernel record has to.
ghost use Rattle.std.specs.Prelude.{◌≡◌, ◌≤◌, ◌<◌, length, get_or, drop};
ghost use Rattle.records.specs.Records.{table};
ghost use Rattle.lists.specs.Words.{words};
ghost use Rattle.lists.specs.Rows.{limits_of, needed_of, count_fault, place_of, told_of, is_named, is_name_only, policy_or, policy_named, word_of, read_fields, row_of, row_answer};

use crate::fault::Fault;
use crate::words;
use crate::words::Mark;
use same_bytes::same_bytes;

// What a line holds: the numbers of a job, of a setting, of a kernel record, or those of a range.
#[derive(Clone, Copy, Debug, PartialEq, Eq)]
pub enum Form {
    Job,
    Setting,
    Kernel,
    Quanta,
}

// The numbers of a line; those that are missing are 0. Fields and no array: a record is made of a row field by field, and an index would
// be no plainer.
#[derive(Clone, Copy, Debug, PartialEq, Eq)]
pub struct Row {
    pub first: u16,
    pub second: u16,
    pub third: u16,
    pub fourth: u16,
    pub fifth: u16,
}

impl Row {
    // The row of an entry that holds none.
    pub const BLANK: Row = Row {
        first: 0,
        second: 0,
        third: 0,
        fourth: 0,
        fifth: 0,
    };
}

impl From<[u16; MOST]> for Row {
    ghost from_gives = { λ numbers row. row ≡ row_of numbers };

    fn from([first, second, third, fourth, fifth]: [u16; MOST]) -> Row {
        Row {
            first,
            second,
            third,
            fourth,
            fifth,
        }
    }
}

// The most fields of a line.
const MOST: usize = 5;

impl Form {
    // The largest numbers, field by field.
    fn limits(self) -> &'static [u16]
        ensures { result.now ≡ limits_of self }
    {
        match self {
            Form::Job => &[255, 65535, 65535, 65535, 255],
            Form::Setting => &[255, 255, 255, 255, 65535],
            Form::Kernel => &[255, 255, 255, 255],
            Form::Quanta => &[255, 255],
        }
    }

    // How many fields there have to be.
    fn needed(self) -> usize
        ensures { result ≡ needed_of self }
    {
        match self {
            Form::Job | Form::Setting | Form::Kernel => 4,
            Form::Quanta => 2,
        }
    }

    // What is wrong where there are fewer, or more than there are fields.
    fn count_fault(self) -> Fault
        ensures { result ≡ count_fault self }
    {
        match self {
            Form::Job => Fault::JobWords,
            Form::Setting => Fault::SettingWords,
            Form::Kernel => Fault::KernelWords,
            Form::Quanta => Fault::RangeWords,
        }
    }

    // The place of field i among the words of its line, counted from 1: before a range stands its word.
    fn place(self, i: usize) -> u8
        requires { i < 5 }
        ensures { result ≡ place_of self i }
    {
        match self {
            Form::Job | Form::Setting | Form::Kernel => i as u8 + 1,
            Form::Quanta => i as u8 + 2,
        }
    }

    // The limits that are told of larger numbers: those of an accepted job, setting, kernel record or range.
    fn told(self) -> [u16; MOST]
        ensures { result ≡ told_of self }
    {
        match self {
            Form::Job => [255, 60000, 60000, 60000, 255],
            Form::Setting => [255, 8, 2, 64, 65535],
            Form::Kernel => [255, 0, 255, 64, 0],
            Form::Quanta => [64, 64, 0, 0, 0],
        }
    }

    // Whether field i is a policy that may have its name.
    fn is_named(self, i: usize) -> bool
        ensures { result ≡ is_named self i }
    {
        match self {
            Form::Setting => i == 2,
            Form::Job | Form::Kernel | Form::Quanta => false,
        }
    }

    // Whether field i is a policy that has its name alone; a method of its own, as the definition is.
    fn is_name_only(self, i: usize) -> bool
        ensures { result ≡ is_name_only self i }
    {
        match self {
            Form::Kernel => i == 1,
            Form::Job | Form::Setting | Form::Quanta => false,
        }
    }
}

// The number of a placed job's policy, by its name.
#[tactic(auto, unfolding(crate::specs::Rows::policy_named))]
fn policy_named(word: &[u8]) -> Result<u16, Fault>
    ensures { result ≡ policy_named word.now }
{
    if same_bytes(word, b"fifo") {
        return Ok(1);
    }
    if same_bytes(word, b"rr") {
        return Ok(2);
    }
    Err(Fault::NotAPolicyName)
}

// A policy's number by its name, or the number that the word is.
#[tactic(auto, unfolding(crate::specs::Rows::policy_or))]
fn policy_or(word: &[u8], other: Result<u16, Fault>) -> Result<u16, Fault>
    ensures { result ≡ policy_or word.now other }
{
    if same_bytes(word, b"none") {
        return Ok(0);
    }
    policy_named(word).or(other.map_err(|_| Fault::NotAPolicy))
}

// The word of field i.
#[tactic(auto, unfolding(crate::specs::Rows::word_of))]
fn read_word(form: Form, i: usize, limit: u16, word: &[u8]) -> Result<u16, Fault>
    requires { i < 5 }
    ensures { result ≡ word_of form i limit word.now }
{
    if form.is_name_only(i) {
        return policy_named(word);
    }
    let told = form.told();
    let number = words::read_number(word, form.place(i), told[i], limit);
    if form.is_named(i) {
        return policy_or(word, number);
    }
    number
}

// The fields of a line from a place on.
pub(crate) fn read_fields(form: Form, content: &[u8], from: usize) -> Result<Row, Fault>
    requires { from ≤ length content.now }
    ensures { result ≡ row_answer (read_fields form (words (drop from content.now))) }
{
    let mut numbers = [0u16; MOST];
    let mut at = from;
    for (i, limit) in form.limits().iter().enumerate() {
        let start = words::find(Mark::Word, content, at);
        if start == content.len() {
            if i < form.needed() {
                return Err(form.count_fault());
            }
            return Ok(Row::from(numbers));
        }
        let end = words::find(Mark::Blank, content, start);
        numbers[i] = read_word(form, i, *limit, &content[start..end])?;
        at = end;
    }
    if words::find(Mark::Word, content, at) < content.len() {
        return Err(form.count_fault());
    }
    Ok(Row::from(numbers))
}
