// Why a list of jobs or a range is refused: refusals 1, 2, 3, 5 and 6.
ghost use Rattle.std.specs.Prelude.{◌≡◌, ◌<◌};
ghost use Rattle.records.specs.Limits.{most_jobs};
ghost use Rattle.records.specs.Jobs.{id_before};
ghost use Rattle.reasons.specs.Reasons.{size_reason, times_reason, job_reason_at, job_reason, range_reason, list_reason};

use crate::reason;
use crate::reason::{Reason, Sentence};
use records::job::Job;
use records::judge::JobRule;

fn size_reason(size: u32) -> Reason
    ensures { result ≡ size_reason size }
{
    if size == 0 {
        return reason::on_whole(Sentence::NoJobs, 0, 0);
    }
    if size % 8 == 0 {
        return reason::on_whole(Sentence::ManyJobs, size / 8, 0);
    }
    reason::on_whole(Sentence::JobBytes, size, 0)
}

fn times_reason(at: usize, job: Job) -> Reason
    ensures { result ≡ times_reason at job }
{
    let cost = job.cost as u32;
    let period = job.period as u32;
    let deadline = job.deadline as u32;
    if cost == 0 {
        return reason::reason_of(Sentence::ZeroCost, at, 0, 0, 0);
    }
    if deadline < cost {
        return reason::reason_of(Sentence::CostOverDeadline, at, cost, deadline, 0);
    }
    if period < cost {
        return reason::reason_of(Sentence::CostOverPeriod, at, cost, period, 0);
    }
    if 60000 < period {
        return reason::reason_of(Sentence::LongPeriod, at, period, 60000, 0);
    }
    reason::reason_of(Sentence::LongDeadline, at, deadline, 60000, 0)
}

// The id of the job before a place; 0 before the first job.
fn id_before(jobs: [Job; Job::MOST], at: usize) -> u8
    requires { at < most_jobs }
    ensures { result ≡ id_before jobs at }
{
    if at == 0 {
        return 0;
    }
    let job = jobs[at - 1];
    job.id
}

fn job_reason_at(rule: JobRule, at: usize, before: u8, job: Job) -> Reason
    ensures { result ≡ job_reason_at rule at before job }
{
    match rule {
        JobRule::Id => reason::reason_of(Sentence::ZeroId, at, 0, 0, 0),
        JobRule::Order => {
            reason::reason_of(Sentence::IdNotAbove, at, job.id as u32, before as u32, 0)
        }
        JobRule::Times => times_reason(at, job),
    }
}

fn job_reason(rule: JobRule, jobs: [Job; Job::MOST], n: usize) -> Reason
    ensures { result ≡ job_reason rule jobs n }
{
    let at = records::judge::first_faulty(rule, jobs, n);
    if at < Job::MOST {
        let job = jobs[at];
        return job_reason_at(rule, at, id_before(jobs, at), job);
    }
    reason::unknown()
}

fn range_reason(low: u8, high: u8) -> Reason
    ensures { result ≡ range_reason low high }
{
    if low == 0 {
        return reason::on_whole(Sentence::ZeroQuantum, 0, 0);
    }
    if high < low {
        return reason::on_whole(Sentence::EmptyRange, low as u32, high as u32);
    }
    reason::on_whole(Sentence::LongQuantum, high as u32, 64)
}

// Why a list of n jobs in a block of `size` bytes, and a range, get the refusal of this number, which may be any byte: the clause
// holds for each. No entry.
pub fn list_reason(
    number: u8,
    size: u32,
    jobs: [Job; Job::MOST],
    n: usize,
    low: u8,
    high: u8,
) -> Reason
    ensures { result ≡ list_reason number size jobs n low high }
{
    if number == 1 {
        return size_reason(size);
    }
    if number == 2 {
        return job_reason(JobRule::Id, jobs, n);
    }
    if number == 3 {
        return job_reason(JobRule::Order, jobs, n);
    }
    if number == 5 {
        return job_reason(JobRule::Times, jobs, n);
    }
    if number == 6 {
        return range_reason(low, high);
    }
    reason::unknown()
}
