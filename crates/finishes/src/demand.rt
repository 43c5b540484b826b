// The work of the jobs above within a time.
ghost use Rattle.std.specs.Prelude.{◌≡◌, ◌^◌, ◌<◌, ◌≤◌};
ghost use Rattle.sets.specs.Sets.{has};
ghost use Rattle.response.specs.Demand.{ceil_div, work, interference};
ghost use Rattle.finishes.specs.Finishes.{work_by};

use crate::finish::LONGEST_TIME;
use records::job::Job;

// a divided by b, rounded up; 0 where b is 0. `runs` has its own for cycles: with one public function, which has to answer for any two
// numbers, bounds and marks take up to 1.05 times as long (docs/PERFORMANCE.md).
fn ceil_div(a: u32, b: u32) -> u32
    requires { (a < 2 ^ 31) × (b < 2 ^ 16) }
    ensures { (result ≡ ceil_div a b) × (result ≤ a) }
{
    if b == 0 {
        return 0;
    }
    (a + (b - 1)) / b
}

// The work that a job adds within t ticks, its releases noticed late by its delay.
fn work(job: Job, t: u32) -> u64
    requires { t < 2 ^ 22 }
    ensures { (result ≡ work job t) × (result < 2 ^ 39) }
{
    (ceil_div(t + job.delay as u32, job.period as u32) as u64) * (job.cost as u64)
}

// The work of the jobs of the set above within t ticks. Within the search it has to be in line: out of line plans take longer.
#[inline(always)]
pub(crate) fn interference(jobs: [Job; Job::MOST], above: u8, t: u32) -> u64
    requires { t < 2 ^ 22 }
    ensures { (result ≡ interference jobs (has above) t) × (result ≤ 2 ^ 42) }
{
    let mut sum: u64 = 0;
    for (i, job) in jobs.iter().enumerate() {
        if sets::contains(above, i) {
            sum += work(*job, t);
        }
    }
    sum
}

// The work of two sets of jobs.
#[derive(Clone, Copy)]
pub(crate) struct Works {
    pub long: u64,
    pub short: u64,
}

// The work of two sets of jobs within t ticks, in one pass.
pub(crate) fn works_of(jobs: [Job; Job::MOST], long: u8, short: u8, t: u32) -> Works
    requires { t < 2 ^ 22 }
    ensures { (result.long ≡ interference jobs (has long) t) × (result.short ≡ interference jobs (has short) t) × (result.long ≤ 2 ^ 42) × (result.short ≤ 2 ^ 42) }
{
    let mut of_long: u64 = 0;
    let mut of_short: u64 = 0;
    for (i, job) in jobs.iter().enumerate() {
        if sets::contains(long, i) {
            of_long += work(*job, t);
        }
        if sets::contains(short, i) {
            of_short += work(*job, t);
        }
    }
    Works {
        long: of_long,
        short: of_short,
    }
}

// The same of one set, for callers that know a finish: 0 past the last time that is sought. It is no entry and judges nothing.
pub fn work_by(jobs: [Job; Job::MOST], set: u8, t: u32) -> u64
    ensures { result ≡ work_by jobs (has set) t }
{
    if LONGEST_TIME < t {
        return 0;
    }
    interference(jobs, set, t)
}
