// The entries for callers in C and Rust: a slice is a pointer and a length, an answer is a word.
#![tactic(auto)]

ghost use Rattle.std.specs.Prelude.{◌≡◌};
ghost use Rattle.records.specs.Refusals.{verdict};
ghost use Rattle.records.specs.Jobs.{read_jobs};
ghost use Rattle.same_bytes.specs.Same.{same_bytes};
ghost use Rattle.marker.specs.Marks.{bounds_outcome, mark_answer, mark_outcome};
ghost use Rattle.planner.specs.Plans.{plan_answer};
ghost use Rattle.capi.specs.Promises.{WordPromise, GatePlanWord, GateMarkWord, BreakdownWord, ToKernelWord, FromKernelWord};
ghost use Rattle.capi.specs.Words.{word, in_words, count_value, no_value, truth_value, plan_value};

use kernel::priority::KernelPriority;
use planner::Planned;
use records::refusal::Refusal;

fn verdict_word(answer: Result<(), Refusal>) -> u32
    ensures { result ≡ word no_value (verdict answer) }
{
    match answer {
        Ok(()) => 0,
        Err(refusal) => refusal.number() as u32,
    }
}

fn mark_word(answer: Result<bool, Refusal>) -> u32
    ensures { result ≡ word truth_value (mark_answer answer) }
{
    match answer {
        Ok(true) => 256,
        Ok(false) => 0,
        Err(refusal) => refusal.number() as u32,
    }
}

// A function for each kind of value: a trait for the three would be longer than they are.
fn plan_word(answer: Result<Planned, Refusal>) -> u32
    ensures { result ≡ word plan_value (plan_answer answer) }
{
    match answer {
        Ok(plan) => 256 * (plan.placed as u32 + 256 * plan.considered as u32),
        Err(refusal) => refusal.number() as u32,
    }
}

// Byte 1: the number of jobs.
#[unsafe(no_mangle)]
pub extern "C" fn ruzhtylen_read_jobs(jobs: &[u8]) -> u32
    ensures { result ≡ word count_value (read_jobs jobs.now).0 }
{
    match records::block::read_jobs(jobs) {
        Ok(read) => 256 * read.count as u32,
        Err(refusal) => refusal.number() as u32,
    }
}

#[unsafe(no_mangle)]
pub extern "C" fn ruzhtylen_bounds(
    jobs: &[u8],
    low: u8,
    high: u8,
    configuration: &[u8],
    bounds: &mut [u8],
) -> u32
    ensures { (result, bounds.new) ≡ in_words no_value (bounds_outcome jobs.now low high configuration.now bounds.old) }
{
    verdict_word(marker::bounds(jobs, low, high, configuration, &mut *bounds))
}

// Byte 1: 1 passes, 0 fails.
#[unsafe(no_mangle)]
pub extern "C" fn ruzhtylen_mark(
    jobs: &[u8],
    low: u8,
    high: u8,
    configuration: &[u8],
    bounds: &mut [u8],
) -> u32
    ensures { (result, bounds.new) ≡ in_words truth_value (mark_outcome jobs.now low high configuration.now bounds.old) }
{
    mark_word(marker::mark(jobs, low, high, configuration, &mut *bounds))
}

// Byte 1: the placed set, bytes 2 and 3: the count of sets considered.
#[unsafe(no_mangle)]
pub extern "C" fn ruzhtylen_plan(
    jobs: &[u8],
    low: u8,
    high: u8,
    configuration: &mut [u8],
    bounds: &mut [u8],
) -> u32
    ensures { WordPromise jobs.now low high configuration.old bounds.old result (configuration.new, bounds.new) }
{
    plan_word(planner::plan(jobs, low, high, &mut *configuration, &mut *bounds))
}

// The planner at the start gate: as ruzhtylen_plan.
#[unsafe(no_mangle)]
pub extern "C" fn ruzhtylen_gate_plan(
    jobs: &[u8],
    low: u8,
    high: u8,
    configuration: &mut [u8],
    bounds: &mut [u8],
) -> u32
    ensures { GatePlanWord jobs.now low high configuration.old bounds.old result (configuration.new, bounds.new) }
{
    plan_word(gate::gate_plan(jobs, low, high, &mut *configuration, &mut *bounds))
}

// The marker at the start gate: as ruzhtylen_mark.
#[unsafe(no_mangle)]
pub extern "C" fn ruzhtylen_gate_mark(
    jobs: &[u8],
    low: u8,
    high: u8,
    configuration: &[u8],
    bounds: &mut [u8],
) -> u32
    ensures { GateMarkWord jobs.now low high configuration.now bounds.old result bounds.new }
{
    mark_word(gate::gate_mark(jobs, low, high, configuration, &mut *bounds))
}

// The parts of the bounds of a configuration block, in the output.
#[unsafe(no_mangle)]
pub extern "C" fn ruzhtylen_breakdown(
    jobs: &[u8],
    low: u8,
    high: u8,
    configuration: &[u8],
    output: &mut [u8],
) -> u32
    ensures { BreakdownWord jobs.now low high configuration.now output.old result output.new }
{
    verdict_word(breakdown::breakdown(jobs, low, high, configuration, &mut *output))
}

// A configuration block as kernel records, in the output. Callers in C have a name for each way.
#[unsafe(no_mangle)]
pub extern "C" fn ruzhtylen_to_kernel(
    jobs: &[u8],
    low: u8,
    high: u8,
    lowest: u8,
    highest: u8,
    configuration: &[u8],
    output: &mut [u8],
) -> u32
    ensures { ToKernelWord jobs.now low high lowest highest configuration.now output.old result output.new }
{
    verdict_word(kernel::to_kernel(
        jobs,
        low,
        high,
        KernelPriority(lowest),
        KernelPriority(highest),
        configuration,
        &mut *output,
    ))
}

// A kernel block as a configuration, in the output.
#[unsafe(no_mangle)]
pub extern "C" fn ruzhtylen_from_kernel(
    jobs: &[u8],
    low: u8,
    high: u8,
    lowest: u8,
    highest: u8,
    kernel: &[u8],
    output: &mut [u8],
) -> u32
    ensures { FromKernelWord jobs.now low high lowest highest kernel.now output.old result output.new }
{
    verdict_word(kernel::from_kernel(
        jobs,
        low,
        high,
        KernelPriority(lowest),
        KernelPriority(highest),
        kernel,
        &mut *output,
    ))
}

// 1: the same bytes, 0: not.
#[unsafe(no_mangle)]
pub extern "C" fn ruzhtylen_same_bytes(a: &[u8], b: &[u8]) -> u8
    ensures { result ≡ truth_value (same_bytes a.now b.now) }
{
    if same_bytes::same_bytes(a, b) {
        return 1;
    }
    0
}
