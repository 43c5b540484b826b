// What is printed of a hand-in that is marked: a line per job, and whether it passes; and the bounds of a configuration, in a key's lines.
#![tactic(auto)]

ghost use Rattle.std.specs.Prelude.{◌≡◌, [], ◌∷◌, ◌+◌, ◌≤◌, min, length, IfOk};
ghost use Rattle.std.proofs.lemmas.List.Edits.{sets};
ghost use Rattle.records.specs.Limits.{most_jobs};
ghost use Rattle.writing.specs.Templates.{rows_to, Wrote};
ghost use Rattle.records.specs.Refusals.{given};
ghost use Rattle.text.specs.Answers.{told};
ghost use Rattle.text.specs.Keys.{job_line};
ghost use Rattle.marking.specs.Marks.{mark_line, over_text, none_over, verdict_line, marks_text, marks_outcome, bounds_told};

use configuration::setting::Setting;
use records::job::Job;
use records::refusal::Refusal;
use text::answer::Told;
use text::key;

// The size of a buffer that holds what is printed of any jobs.
pub const SIZE: usize = 3190;

// The line of a job with its bound.
fn put_mark(output: &mut [u8], at: usize, job: Job, bound: u16) -> usize
    requires { at + 370 ≤ length output.old }
    ensures { Wrote 370 output.old output.new at result (mark_line (job ∷ []) (bound ∷ []) 0) }
{
    let id = job.id as u32;
    let deadline = job.deadline as u32;
    if bound == 0 {
        return writing::put_template(
            output,
            at,
            b"job %: no bound up to its deadline %\n",
            &[id, deadline],
        );
    }
    writing::put_template(
        output,
        at,
        b"job %: bound %, deadline %\n",
        &[id, bound as u32, deadline],
    )
}

// The lines of n jobs, from the start of the output on.
fn put_lines(output: &mut [u8], jobs: [Job; Job::MOST], bounds: [u16; Job::MOST], n: usize) -> usize
    requires { (n ≤ most_jobs) × (2960 ≤ length output.old) }
    ensures { Wrote 2960 output.old output.new 0 result (rows_to (mark_line jobs bounds) n) }
{
    let mut at = 0;
    for (job, bound) in jobs[..n].iter().zip(&bounds) {
        at = put_mark(output, at, *job, *bound);
    }
    at
}

// The id of a job that has no bound.
fn put_over(output: &mut [u8], at: usize, job: Job, bound: u16) -> usize
    requires { at + 20 ≤ length output.old }
    ensures { Wrote 20 output.old output.new at result (over_text (job ∷ []) (bound ∷ []) 0) }
{
    if bound != 0 {
        return at;
    }
    writing::put_template(output, at, b" %", &[job.id as u32])
}

// The ids of the jobs of n that have no bound. Its loop stands beside that of put_lines: they differ in what a row writes, and a clause on a
// closure that writes is longer than the loop.
fn put_overs(
    output: &mut [u8],
    from: usize,
    jobs: [Job; Job::MOST],
    bounds: [u16; Job::MOST],
    n: usize,
) -> usize
    requires { (n ≤ most_jobs) × (from + 160 ≤ length output.old) }
    ensures { Wrote 160 output.old output.new from result (rows_to (over_text jobs bounds) n) }
{
    let mut at = from;
    for (job, bound) in jobs[..n].iter().zip(&bounds) {
        at = put_over(output, at, *job, *bound);
    }
    at
}

fn put_verdict(
    output: &mut [u8],
    at: usize,
    jobs: [Job; Job::MOST],
    bounds: [u16; Job::MOST],
    n: usize,
) -> usize
    requires { (n ≤ most_jobs) × (at + 230 ≤ length output.old) }
    ensures { Wrote 230 output.old output.new at result (verdict_line n jobs bounds) }
{
    if marker::table::none_zero(bounds, n) {
        return writing::put_template(output, at, b"passes\n", &[]);
    }
    let after_word = writing::put_template(output, at, b"fails:", &[]);
    let after_jobs = put_overs(output, after_word, jobs, bounds, n);
    writing::put_template(output, after_jobs, b"\n", &[])
}

// What is printed of n jobs with their bounds, from the start of the output on.
fn put_marks(output: &mut [u8], jobs: [Job; Job::MOST], bounds: [u16; Job::MOST], n: usize) -> Told
    requires { (n ≤ most_jobs) × (3190 ≤ length output.old) }
    ensures { (told (Ok result) ≡ given (none_over n bounds, (length (rows_to (mark_line jobs bounds) n), length (marks_text n jobs bounds)))) × (result.last ≤ result.length) × Wrote 3190 output.old output.new 0 result.length (marks_text n jobs bounds) }
{
    let last = put_lines(output, jobs, bounds, n);
    let length = put_verdict(output, last, jobs, bounds, n);
    let passes = marker::table::none_zero(bounds, n);
    Told {
        yes: passes,
        last,
        length,
    }
}

// The lines of n jobs with their settings and bounds, from the start of the output on.
fn put_bounds(
    output: &mut [u8; key::SIZE],
    settings: [Setting; Job::MOST],
    bounds: [u16; Job::MOST],
    n: usize,
) -> Told
    ensures { (told (Ok result) ≡ given (none_over (min n most_jobs) bounds, (length (rows_to (job_line settings bounds) (min n most_jobs)), length (rows_to (job_line settings bounds) (min n most_jobs))))) × (result.last ≤ result.length) × (result.length ≤ length output.new) × (output.new ≡ sets output.old 0 (rows_to (job_line settings bounds) (min n most_jobs))) }
{
    let length = key::put_rows(settings, bounds, n, output);
    Told {
        yes: marker::table::none_zero(bounds, n),
        last: length,
        length,
    }
}

// What is printed of a configuration block that is marked, at the start of the output, and whether it passes.
pub fn marks(
    jobs: &[u8],
    low: u8,
    high: u8,
    configuration: &[u8],
    output: &mut [u8; SIZE],
) -> Result<Told, Refusal>
    ensures { ((told result, output.new) ≡ marks_outcome jobs.now low high configuration.now output.old) × IfOk result (λ t. (t.last ≤ t.length) × (t.length ≤ length output.new)) }
{
    let call = records::call::read_call(jobs, low, high)?;
    let settings = configuration::block::read_full(call, configuration)?;
    let table = call.jobs.table;
    let n = call.jobs.count;
    let bounds = marker::table::bounds_of(table, settings.table, n);
    Ok(put_marks(&mut *output, table, bounds, Job::at_most(n)))
}

// The lines of a configuration block, full or not, with its bounds, at the start of the output, and whether each job is served.
pub fn bounds(
    jobs: &[u8],
    low: u8,
    high: u8,
    configuration: &[u8],
    output: &mut [u8; key::SIZE],
) -> Result<Told, Refusal>
    ensures { ((told result, output.new) ≡ bounds_told jobs.now low high configuration.now output.old) × IfOk result (λ t. (t.last ≤ t.length) × (t.length ≤ length output.new)) }
{
    let call = records::call::read_call(jobs, low, high)?;
    let settings = configuration::block::read_settings(call, configuration)?;
    let table = call.jobs.table;
    let n = call.jobs.count;
    let bounds = marker::table::bounds_of(table, settings.table, n);
    Ok(put_bounds(&mut *output, settings.table, bounds, n))
}
