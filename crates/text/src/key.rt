// The key program's text: a line per job, and how many are placed.
ghost use Rattle.std.specs.Prelude.{◌≡◌, [], ◌∷◌, ◌+◌, ◌≤◌, min, length, take};
ghost use Rattle.std.proofs.lemmas.List.Edits.{sets};
ghost use Rattle.records.specs.Limits.{most_jobs};
ghost use Rattle.writing.specs.Templates.{rows_to, Wrote};
ghost use Rattle.records.specs.Refusals.{number};
ghost use Rattle.text.specs.Answers.{answered};
ghost use Rattle.text.specs.Keys.{job_line, table_text, refused_text, key_of, key_answer, KeyPromise};

use configuration::setting::Setting;
use records::job::Job;
use records::refusal::Refusal;

// The size of a buffer that holds every key.
pub const SIZE: usize = 940;

// The line of a job with its setting and its bound.
fn put_job(output: &mut [u8], at: usize, setting: Setting, bound: u16) -> usize
    requires { at + 100 ≤ length output.old }
    ensures { Wrote 100 output.old output.new at result (job_line (setting ∷ []) (bound ∷ []) 0) }
{
    let level = setting.level as u32;
    let policy = setting.policy as u32;
    let quantum = setting.quantum as u32;
    writing::put_template(
        output,
        at,
        b"% % % % %\n",
        &[setting.id as u32, level, policy, quantum, bound as u32],
    )
}

// The lines of n jobs, from the start of the output on; a loop of its own, as a clause on a closure that writes is longer.
fn put_jobs(
    output: &mut [u8],
    settings: [Setting; Job::MOST],
    bounds: [u16; Job::MOST],
    n: usize,
) -> usize
    requires { (n ≤ most_jobs) × (800 ≤ length output.old) }
    ensures { Wrote 800 output.old output.new 0 result (rows_to (job_line settings bounds) n) }
{
    let mut at = 0;
    for (setting, bound) in settings[..n].iter().zip(&bounds) {
        at = put_job(output, at, *setting, *bound);
    }
    at
}

// The lines of the first n jobs with their settings and bounds, at the start of the output; it gives the text's length. No entry; for n
// past 8 it takes all 8 settings.
pub fn put_rows(
    settings: [Setting; Job::MOST],
    bounds: [u16; Job::MOST],
    n: usize,
    output: &mut [u8; SIZE],
) -> usize
    ensures { (result ≤ length output.new) × (result ≡ length (rows_to (job_line settings bounds) (min n most_jobs))) × (output.new ≡ sets output.old 0 (rows_to (job_line settings bounds) (min n most_jobs))) }
{
    put_jobs(output, settings, bounds, Job::at_most(n))
}

// The key of n jobs.
fn put_key(
    output: &mut [u8],
    settings: [Setting; Job::MOST],
    bounds: [u16; Job::MOST],
    placed: u32,
    n: usize,
) -> usize
    requires { (n ≤ most_jobs) × (940 ≤ length output.old) }
    ensures { Wrote 940 output.old output.new 0 result (table_text settings bounds placed n) }
{
    let at = put_jobs(output, settings, bounds, n);
    writing::put_template(output, at, b"placed % of %\n", &[placed, n as u32])
}

// The line of a refused block, whatever the number.
fn put_refused(output: &mut [u8], number: u8) -> usize
    requires { 100 ≤ length output.old }
    ensures { Wrote 100 output.old output.new 0 result (refused_text number) }
{
    writing::put_template(output, 0, b"refused %\n", &[number as u32])
}

// The line of a refused block, at the start of the output; it gives the text's length. The number may be any byte: the clause holds for each.
// No entry.
pub fn refused(number: u8, output: &mut [u8; SIZE]) -> usize
    ensures { (result ≤ length output.new) × (result ≡ length (refused_text number)) × (output.new ≡ sets output.old 0 (refused_text number)) }
{
    put_refused(output, number)
}

// The answer beside a key, and the key's length in memory that is lent: a refusal has a text too.
#[derive(Clone, Copy)]
pub struct Keyed {
    pub answer: Result<bool, Refusal>,
    pub length: usize,
}

// The key of a call that is turned down.
fn refused_key(output: &mut [u8; SIZE], refusal: Refusal) -> Keyed
    ensures { (result.answer ≡ Err refusal) × Wrote 100 output.old output.new 0 result.length (refused_text (number refusal)) }
{
    Keyed {
        answer: Err(refusal),
        length: put_refused(output, refusal.number()),
    }
}

// The text for a job block and a range, at the start of the output, and whether each job is placed. It is made of the plan's tables: the
// numbers stand there as they are printed, while the entry's outputs would have to be read again.
pub fn answer_key(jobs: &[u8], low: u8, high: u8, output: &mut [u8; SIZE]) -> Keyed
    ensures { (result.length ≤ length output.new) × (output.new ≡ sets output.old 0 (key_of jobs.now low high)) × KeyPromise jobs.now low high (take result.length output.new) × (answered result.answer ≡ key_answer jobs.now low high) }
{
    let call = match records::call::read_call(jobs, low, high) {
        Ok(call) => call,
        Err(refusal) => return refused_key(output, refusal),
    };
    let plan = match planner::table::plan_table(call) {
        Ok(plan) => plan,
        Err(refusal) => return refused_key(output, refusal),
    };
    let n = call.jobs.count;
    let placed = sets::size(plan.placed);
    let length = put_key(output, plan.settings, plan.bounds, placed, n);
    Keyed {
        answer: Ok(placed as usize == n),
        length,
    }
}

// The same without the answer; it gives the text's length.
pub fn key(jobs: &[u8], low: u8, high: u8, output: &mut [u8; SIZE]) -> usize
    ensures { (result ≤ length output.new) × (output.new ≡ sets output.old 0 (key_of jobs.now low high)) × KeyPromise jobs.now low high (take result output.new) }
{
    let keyed = answer_key(jobs, low, high, output);
    keyed.length
}
