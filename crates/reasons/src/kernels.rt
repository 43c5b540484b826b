// Why priorities and kernel records are refused: refusals 13, 7, 8, 14, 9 and 10.
ghost use Rattle.std.specs.Prelude.{◌≡◌, ◌≤◌};
ghost use Rattle.records.specs.Limits.{most_jobs};
ghost use Rattle.reasons.specs.Reasons.{span_reason, priorities_reason, lowest_top, top_reason, kernel_shape_reason, kernel_sharing_reason, kernel_record_reason_at, kernel_record_reason, kernel_reason};

use crate::reason::{Reason, Sentence};
use crate::{hand_in, reason};
use configuration::setting::Setting;
use kernel::judge::KernelRule;
use kernel::priority::KernelPriority;
use kernel::record::KernelRecord;
use records::call::Call;
use records::job::Job;
use records::range::Range;

fn span_reason(n: usize, lowest: KernelPriority, highest: KernelPriority) -> Reason
    requires { n ≤ most_jobs }
    ensures { result ≡ span_reason n lowest highest }
{
    let low = lowest.0 as u32;
    let high = highest.0 as u32;
    if high < low {
        return reason::on_whole(Sentence::EmptyPriorities, low, high);
    }
    reason::reason_of(Sentence::FewPriorities, Job::MOST, low, high, n as u32)
}

// Why a lowest and a highest priority for n jobs get the refusal of this number, which may be any byte: the clause holds for each. No entry.
pub fn priorities_reason(
    number: u8,
    n: usize,
    lowest: KernelPriority,
    highest: KernelPriority,
) -> Reason
    ensures { result ≡ priorities_reason number n lowest highest }
{
    if number == 13 {
        return span_reason(Job::at_most(n), lowest, highest);
    }
    reason::unknown()
}

// The lowest of the top n priorities; 0 where there are fewer than n.
fn lowest_top(n: usize, highest: KernelPriority) -> u32
    requires { n ≤ most_jobs }
    ensures { result ≡ lowest_top n highest }
{
    let values = highest.0 as u32 + 1;
    let jobs = n as u32;
    if values < jobs {
        return 0;
    }
    values - jobs
}

fn top_reason(at: usize, n: usize, highest: KernelPriority, kernel: KernelRecord) -> Reason
    requires { n ≤ most_jobs }
    ensures { result ≡ top_reason at n highest kernel }
{
    let priority = kernel.priority;
    reason::reason_of(
        Sentence::PriorityOutside,
        at,
        priority.0 as u32,
        lowest_top(n, highest),
        highest.0 as u32,
    )
}

// What is wrong with the shape of a kernel record: its policy, else its quantum.
fn kernel_shape_reason(at: usize, range: Range, kernel: KernelRecord) -> Reason
    ensures { result ≡ kernel_shape_reason at range.low range.high kernel }
{
    let policy = kernel.policy;
    if policy == Setting::NOT_PLACED {
        return reason::reason_of(Sentence::KernelPolicy, at, policy as u32, 0, 0);
    }
    if Setting::ROUND_ROBIN < policy {
        return reason::reason_of(Sentence::KernelPolicy, at, policy as u32, 0, 0);
    }
    hand_in::quantum_reason(at, range, policy, kernel.quantum)
}

fn kernel_sharing_reason(at: usize, kernel: KernelRecord) -> Reason
    ensures { result ≡ kernel_sharing_reason at kernel }
{
    let priority = kernel.priority;
    if kernel.policy == Setting::FIFO {
        return reason::reason_of(Sentence::FifoSharesPriority, at, priority.0 as u32, 0, 0);
    }
    reason::reason_of(Sentence::AlonePriority, at, priority.0 as u32, 0, 0)
}

// What is said of a kernel record; the number of jobs, n, is cut to 8.
fn kernel_record_reason_at(
    rule: KernelRule,
    at: usize,
    n: usize,
    range: Range,
    highest: KernelPriority,
    job: Job,
    kernel: KernelRecord,
) -> Reason
    requires { n ≤ most_jobs }
    ensures { result ≡ kernel_record_reason_at rule at n range.low range.high highest job kernel }
{
    match rule {
        KernelRule::Id => {
            reason::reason_of(Sentence::OtherId, at, kernel.id as u32, job.id as u32, 0)
        }
        KernelRule::Top => top_reason(at, n, highest, kernel),
        KernelRule::Shape => kernel_shape_reason(at, range, kernel),
        KernelRule::Sharing => kernel_sharing_reason(at, kernel),
    }
}

fn kernel_record_reason(
    rule: KernelRule,
    call: Call,
    kernels: [KernelRecord; Job::MOST],
    highest: KernelPriority,
) -> Reason
    ensures { result ≡ kernel_record_reason rule call.jobs.table kernels call.jobs.count call.range.low call.range.high highest }
{
    let jobs = call.jobs.table;
    let range = call.range;
    let count = Job::at_most(call.jobs.count);
    let at = kernel::judge::first_faulty(rule, call, kernels, highest);
    if at < Job::MOST {
        let job = jobs[at];
        let kernel = kernels[at];
        return kernel_record_reason_at(rule, at, count, range, highest, job, kernel);
    }
    reason::unknown()
}

// Why a kernel block of `size` bytes with these records, for a call's jobs and range and a highest priority, gets the refusal of this number,
// which may be any byte: the clause holds for each. No entry.
pub fn kernel_reason(
    number: u8,
    size: u32,
    call: Call,
    kernels: [KernelRecord; Job::MOST],
    highest: KernelPriority,
) -> Reason
    ensures { result ≡ kernel_reason number size call.jobs.table kernels call.jobs.count call.range.low call.range.high highest }
{
    match number {
        7 => { hand_in::count_reason(Sentence::KernelBytes, size, Job::at_most(call.jobs.count)) }
        8 => kernel_record_reason(KernelRule::Id, call, kernels, highest),
        14 => kernel_record_reason(KernelRule::Top, call, kernels, highest),
        9 => kernel_record_reason(KernelRule::Shape, call, kernels, highest),
        10 => kernel_record_reason(KernelRule::Sharing, call, kernels, highest),
        _ => reason::unknown(),
    }
}
