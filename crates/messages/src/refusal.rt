// A refusal in words: its number, the record at fault, and the sentence.
ghost use Rattle.std.specs.Prelude.{◌≡◌, ◌+◌, ◌≤◌, ◌<◌, length};
ghost use Rattle.std.proofs.lemmas.List.Edits.{sets};
ghost use Rattle.records.specs.Limits.{most_jobs};
ghost use Rattle.writing.specs.Templates.{filled, Wrote};
ghost use Rattle.messages.specs.Refusals.{template, sentence_line, place_text, record_text, refusal_text};

use reasons::reason::{Reason, Sentence};
use records::job::Job;

// The size of a buffer that holds any refusal.
pub const SIZE: usize = 820;

// How a record is named: by its line in a text, or by its place in a block.
#[derive(Clone, Copy)]
pub enum Naming {
    Line,
    Record,
}

// The line of a sentence in the text of all, counted from 0.
fn sentence_line(sentence: Sentence) -> usize
    ensures { result ≡ sentence_line sentence }
{
    match sentence {
        Sentence::NoJobs => 0,
        Sentence::JobBytes => 1,
        Sentence::ManyJobs => 2,
        Sentence::ZeroId => 3,
        Sentence::IdNotAbove => 4,
        Sentence::ZeroCost => 5,
        Sentence::CostOverDeadline => 6,
        Sentence::CostOverPeriod => 7,
        Sentence::LongPeriod => 8,
        Sentence::LongDeadline => 9,
        Sentence::ZeroQuantum => 10,
        Sentence::EmptyRange => 11,
        Sentence::LongQuantum => 12,
        Sentence::SettingBytes => 13,
        Sentence::SettingCount => 14,
        Sentence::OtherId => 15,
        Sentence::NumbersOfNone => 16,
        Sentence::NoPolicy => 17,
        Sentence::LevelOutside => 18,
        Sentence::FifoQuantum => 19,
        Sentence::QuantumOutside => 20,
        Sentence::FifoShares => 21,
        Sentence::Alone => 22,
        Sentence::NotPlaced => 23,
        Sentence::EmptyPriorities => 24,
        Sentence::FewPriorities => 25,
        Sentence::KernelBytes => 26,
        Sentence::PriorityOutside => 27,
        Sentence::KernelPolicy => 28,
        Sentence::FifoSharesPriority => 29,
        Sentence::AlonePriority => 30,
        Sentence::Unknown => 31,
        Sentence::GateJobs => 32,
        Sentence::GateQuantum => 33,
    }
}

fn put_sentence(output: &mut [u8], at: usize, sentence: Sentence, numbers: [u32; 4]) -> usize
    requires { at + 600 ≤ length output.old }
    ensures { Wrote 600 output.old output.new at result (filled (template sentence) numbers) }
{
    writing::put_line(
        output,
        at,
        b"the list has no job, and has to have 1 to 8
the block has % bytes, which is not 8 for each job
the block has % jobs, and 8 are the most
the id is 0
the id % is not above the id % before it
the cost is 0
the cost % is above the deadline %
the cost % is above the period %
the period % is above %
the deadline % is above %
the lowest quantum is 0
the lowest quantum % is above the highest %
the highest quantum % is above %
the configuration has % bytes, which is not 4 for each job
the number of records is %, that of the jobs %
the id % stands where the list has job %
policy none with level % and quantum %, which have to be 0
the policy % is none of 0, 1 and 2
the level % is not from 1 to %
policy fifo with quantum %, which has to be 0
the quantum % is not from % to %
policy fifo, and another job has level % too
policy rr, and no other job has level %
job % is not placed
the lowest priority % is above the highest %
the priorities from % to % are fewer than the % jobs
the kernel block has % bytes, which is not 4 for each job
the priority % is not from % to %
the policy % is neither 1 nor 2
policy fifo, and another job has priority % too
policy rr, and no other job has priority %
the table of refusals says why
the list has % jobs, and the start gate takes at most %
the highest quantum is %, and the start gate takes at most %
",
        sentence_line(sentence),
        &numbers,
    )
}

fn put_place(
    output: &mut [u8],
    at: usize,
    naming: Naming,
    lines: [u32; Job::MOST],
    place: usize,
) -> usize
    requires { (at + 100 ≤ length output.old) × (place < most_jobs) }
    ensures { Wrote 100 output.old output.new at result (place_text naming lines place) }
{
    match naming {
        Naming::Line => { writing::put_template(output, at, b"line %: ", &[lines[place]]) }
        Naming::Record => { writing::put_template(output, at, b"record %: ", &[place as u32 + 1]) }
    }
}

fn put_record(
    output: &mut [u8],
    at: usize,
    naming: Naming,
    lines: [u32; Job::MOST],
    place: usize,
) -> usize
    requires { at + 100 ≤ length output.old }
    ensures { Wrote 100 output.old output.new at result (record_text naming lines place) }
{
    if place < Job::MOST {
        return put_place(output, at, naming, lines, place);
    }
    at
}

// The refusal of this number with its reason, at the start of the output; it gives the text's length. The number may be any byte: the clause
// holds for each. No entry.
pub fn put_refusal(
    number: u8,
    naming: Naming,
    lines: [u32; Job::MOST],
    reason: Reason,
    output: &mut [u8; SIZE],
) -> usize
    ensures { (result ≤ length output.new) × (result ≡ length (refusal_text number naming lines reason)) × (output.new ≡ sets output.old 0 (refusal_text number naming lines reason)) }
{
    let after_number = writing::put_template(output, 0, b"refused %: ", &[number as u32]);
    let after_record = put_record(output, after_number, naming, lines, reason.at);
    let sentence = reason.sentence;
    let numbers = reason.numbers;
    let after_sentence = put_sentence(output, after_record, sentence, numbers);
    writing::put_template(output, after_sentence, b"\n", &[])
}
