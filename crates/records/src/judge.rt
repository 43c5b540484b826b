// Refusals 1, 2, 3 and 5 of job blocks and tables, and 6 after them.
ghost use Rattle.std.specs.Prelude.{◌≡◌, ◌≤◌, min};
ghost use Rattle.sets.specs.Places.{every, failing};
ghost use Rattle.records.specs.Limits.{most_jobs};
ghost use Rattle.records.specs.Refusals.{verdict, answer};
ghost use Rattle.records.specs.Jobs.{job_ok, job_ok_at, job_tests, size_tests, table_tests};
ghost use Rattle.records.specs.Calls.{question_tests};

use crate::call::Call;
use crate::job::Job;
use crate::range::Range;
use crate::refusal::Refusal;

// What a job is held to: refusals 2, 3 and 5.
#[derive(Clone, Copy)]
pub enum JobRule {
    Id,
    Order,
    Times,
}

// Whether the rule holds of a job, `before` being the id of the job before it.
fn job_ok(rule: JobRule, before: u8, job: Job) -> bool
    ensures { result ≡ job_ok rule before job }
{
    match rule {
        JobRule::Id => 1 <= job.id,
        JobRule::Order => before < job.id,
        JobRule::Times => Job::times_ok(job.cost, job.period, job.deadline),
    }
}

// The place of the first of the first n jobs of a table of which the rule does not hold; n where it holds of each. No entry; for n past 8
// it takes all 8 jobs. Each judge has such a loop: a test that is handed in may be called under a `requires` alone, which no public function
// has.
pub fn first_faulty(rule: JobRule, table: [Job; Job::MOST], n: usize) -> usize
    ensures { result ≡ failing (job_ok_at rule table) (min n most_jobs) }
{
    let count = Job::at_most(n);
    let mut before: u8 = 0;
    for i in 0..count {
        let job = table[i];
        if !job_ok(rule, before, job) {
            return i;
        }
        before = job.id;
    }
    count
}

// Whether the rule holds of each of the first n jobs of a table.
fn all_ok(rule: JobRule, table: [Job; Job::MOST], n: usize) -> bool
    requires { n ≤ most_jobs }
    ensures { result ≡ every (job_ok_at rule table) n }
{
    first_faulty(rule, table, n) == n
}

// Judges the first n jobs of a table: refusals 2, 3 and 5, which are those of jobs alone.
pub(crate) fn judge_jobs(table: [Job; Job::MOST], n: usize) -> Result<(), Refusal>
    requires { n ≤ most_jobs }
    ensures { verdict result ≡ answer (job_tests n table) tt }
{
    if !all_ok(JobRule::Id, table, n) {
        return Err(Refusal::JobId);
    }
    if !all_ok(JobRule::Order, table, n) {
        return Err(Refusal::IdOrder);
    }
    if !all_ok(JobRule::Times, table, n) {
        return Err(Refusal::JobTimes);
    }
    Ok(())
}

// Judges the size of a job block: refusal 1.
pub(crate) fn judge_size(size: usize) -> Result<(), Refusal>
    ensures { verdict result ≡ answer (size_tests size) tt }
{
    if size < 1 {
        return Err(Refusal::JobCount);
    }
    if Job::MOST * Job::SIZE < size {
        return Err(Refusal::JobCount);
    }
    if size % Job::SIZE != 0 {
        return Err(Refusal::JobCount);
    }
    Ok(())
}

// Judges a table of n jobs: refusals 1, 2, 3 and 5.
pub(crate) fn judge_table(table: [Job; Job::MOST], n: usize) -> Result<(), Refusal>
    ensures { verdict result ≡ answer (table_tests n table) tt }
{
    if n < 1 {
        return Err(Refusal::JobCount);
    }
    if Job::MOST < n {
        return Err(Refusal::JobCount);
    }
    judge_jobs(table, n)
}

// Judges a call's jobs and its range. No entry; refusals 1, 2, 3, 5 and 6.
pub fn judge_question(call: Call) -> Result<(), Refusal>
    ensures { verdict result ≡ answer (question_tests call.jobs.count call.jobs.table call.range) tt }
{
    judge_table(call.jobs.table, call.jobs.count)?;
    Range::new(call.range.low, call.range.high)?;
    Ok(())
}
