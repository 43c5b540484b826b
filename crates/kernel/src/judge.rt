// Refusal 13 of the priorities, and refusals 8, 14, 9 and 10 of kernel records.
ghost use Rattle.std.specs.Prelude.{◌≡◌, ◌≤◌, ◌<◌, min, take};
ghost use Rattle.sets.specs.Places.{failing};
ghost use Rattle.records.specs.Limits.{most_jobs};
ghost use Rattle.records.specs.Refusals.{answer, verdict};
ghost use Rattle.records.specs.Jobs.{listed};
ghost use Rattle.kernel.specs.Priorities.{priority_tests};
ghost use Rattle.kernel.specs.KernelConfiguration.{on_top, sharing_priority, prioritised, kernel_ok, all_kernels_ok, kernel_tests};

use crate::priority::KernelPriority;
use crate::record::KernelRecord;
use configuration::setting::Setting;
use records::call::Call;
use records::job::Job;
use records::range::Range;
use records::refusal::Refusal;

// Judges the lowest and the highest priority for n jobs: refusal 13.
pub(crate) fn judge_priorities(
    n: usize,
    lowest: KernelPriority,
    highest: KernelPriority,
) -> Result<(), Refusal>
    ensures { verdict result ≡ answer (priority_tests n lowest highest) tt }
{
    if highest.0 < lowest.0 {
        return Err(Refusal::PriorityRange);
    }
    let values = (highest.0 - lowest.0) as usize + 1;
    if values < n {
        return Err(Refusal::PriorityRange);
    }
    Ok(())
}

// Whether a record's priority is among the top n, or its policy is 0.
fn is_on_top(n: usize, highest: KernelPriority, kernel: KernelRecord) -> bool
    ensures { result ≡ on_top n highest kernel }
{
    if kernel.policy == Setting::NOT_PLACED {
        return true;
    }
    let priority = kernel.priority;
    if highest.0 < priority.0 {
        return false;
    }
    ((highest.0 - priority.0) as usize) < n
}

// The number of the first n records with a priority.
fn on_priority(kernels: [KernelRecord; Job::MOST], n: usize, priority: KernelPriority) -> usize
    requires { n ≤ most_jobs }
    ensures { result ≡ sharing_priority n kernels priority.0 }
{
    let mut jobs = 0;
    for i in 0..n {
        let kernel = kernels[i];
        let own = kernel.priority;
        if own.0 == priority.0 {
            jobs += 1;
        }
    }
    jobs
}

// Whether a policy 1 job is alone on its priority, and a policy 2 job is not.
fn is_prioritised(kernels: [KernelRecord; Job::MOST], n: usize, kernel: KernelRecord) -> bool
    requires { n ≤ most_jobs }
    ensures { result ≡ prioritised n kernels kernel }
{
    let jobs = on_priority(kernels, n, kernel.priority);
    configuration::judge::may_share(kernel.policy, jobs)
}

// What a kernel record is held to: refusals 8, 14, 9 and 10.
#[derive(Clone, Copy)]
pub enum KernelRule {
    Id,
    Top,
    Shape,
    Sharing,
}

// Whether the rule holds of the record at place i, n being the number of jobs, cut to 8.
fn kernel_ok(
    rule: KernelRule,
    jobs: [Job; Job::MOST],
    kernels: [KernelRecord; Job::MOST],
    n: usize,
    range: Range,
    highest: KernelPriority,
    i: usize,
) -> bool
    requires { (n ≤ most_jobs) × (i < most_jobs) }
    ensures { result ≡ kernel_ok rule n jobs range.low range.high highest kernels i }
{
    let kernel = kernels[i];
    match rule {
        KernelRule::Id => {
            let job = jobs[i];
            kernel.id == job.id
        }
        KernelRule::Top => is_on_top(n, highest, kernel),
        KernelRule::Shape => {
            configuration::judge::is_scheduled(range, kernel.policy, kernel.quantum)
        }
        KernelRule::Sharing => is_prioritised(kernels, n, kernel),
    }
}

// The place of the first of the records of a call's jobs of which the rule does not hold; their number where it holds of each. No entry;
// for a call of more than 8 jobs it takes all 8 records.
pub fn first_faulty(
    rule: KernelRule,
    call: Call,
    kernels: [KernelRecord; Job::MOST],
    highest: KernelPriority,
) -> usize
    ensures { result ≡ failing (kernel_ok rule (min call.jobs.count most_jobs) call.jobs.table call.range.low call.range.high highest kernels) (min call.jobs.count most_jobs) }
{
    let jobs = call.jobs.table;
    let count = Job::at_most(call.jobs.count);
    for i in 0..count {
        if !kernel_ok(rule, jobs, kernels, count, call.range, highest, i) {
            return i;
        }
    }
    count
}

// Whether the rule holds of each record of a call's jobs.
fn all_ok(
    rule: KernelRule,
    call: Call,
    kernels: [KernelRecord; Job::MOST],
    highest: KernelPriority,
) -> bool
    ensures { result ≡ all_kernels_ok rule (listed call.jobs) call.range.low call.range.high highest (take call.jobs.count kernels) }
{
    first_faulty(rule, call, kernels, highest) == Job::at_most(call.jobs.count)
}

// Judges the records of a call's jobs: refusals 8, 14, 9 and 10.
pub(crate) fn judge_kernels(
    call: Call,
    kernels: [KernelRecord; Job::MOST],
    highest: KernelPriority,
) -> Result<(), Refusal>
    ensures { verdict result ≡ answer (kernel_tests (listed call.jobs) call.range.low call.range.high highest (take call.jobs.count kernels)) tt }
{
    if !all_ok(KernelRule::Id, call, kernels, highest) {
        return Err(Refusal::ConfigurationIds);
    }
    if !all_ok(KernelRule::Top, call, kernels, highest) {
        return Err(Refusal::KernelPriority);
    }
    if !all_ok(KernelRule::Shape, call, kernels, highest) {
        return Err(Refusal::RecordShape);
    }
    if !all_ok(KernelRule::Sharing, call, kernels, highest) {
        return Err(Refusal::LevelSharing);
    }
    Ok(())
}
