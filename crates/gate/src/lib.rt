// The start gate's entries: the planner and the marker for a box with limits (02, E8).
#![tactic(auto)]

ghost use Rattle.limits.specs.Boxes.{gate_limits};
ghost use Rattle.marker.specs.Marks.{mark_answer};
ghost use Rattle.planner.specs.Plans.{answered};
ghost use Rattle.gate.specs.Promises.{PlanWithinPromise, MarkWithinPromise};

use limits::Limits;
use planner::Planned;
use records::refusal::Refusal;

// Plans a job block for a range of quanta and a box with limits. No entry; it judges the limits (15) after the range, and else what the
// mats' entry judges.
pub fn plan_within(
    limits: Limits,
    jobs: &[u8],
    low: u8,
    high: u8,
    configuration: &mut [u8],
    bounds: &mut [u8],
) -> Result<Planned, Refusal>
    ensures { PlanWithinPromise limits jobs.now low high configuration.old bounds.old (answered result configuration.new bounds.new) }
{
    let call = limits::read_call(limits, jobs, low, high)?;
    planner::table::put_plan(call, &mut *configuration, &mut *bounds)
}

// Marks a configuration block for a box with limits. No entry; it judges the limits (15) after the range, and else what the mats' entry
// judges.
pub fn mark_within(
    limits: Limits,
    jobs: &[u8],
    low: u8,
    high: u8,
    configuration: &[u8],
    output: &mut [u8],
) -> Result<bool, Refusal>
    ensures { MarkWithinPromise limits jobs.now low high configuration.now output.old (mark_answer result, output.new) }
{
    let call = limits::read_call(limits, jobs, low, high)?;
    marker::mark_hand_in(call, configuration, &mut *output)
}

// Plans a job block for a range of quanta at the start gate: the configuration and the bounds, in the two outputs.
pub fn gate_plan(
    jobs: &[u8],
    low: u8,
    high: u8,
    configuration: &mut [u8],
    bounds: &mut [u8],
) -> Result<Planned, Refusal>
    ensures { PlanWithinPromise gate_limits jobs.now low high configuration.old bounds.old (answered result configuration.new bounds.new) }
{
    plan_within(
        Limits::GATE,
        jobs,
        low,
        high,
        &mut *configuration,
        &mut *bounds,
    )
}

// Marks a configuration block at the start gate: whether it passes, with the bounds in the output.
pub fn gate_mark(
    jobs: &[u8],
    low: u8,
    high: u8,
    configuration: &[u8],
    output: &mut [u8],
) -> Result<bool, Refusal>
    ensures { MarkWithinPromise gate_limits jobs.now low high configuration.now output.old (mark_answer result, output.new) }
{
    mark_within(Limits::GATE, jobs, low, high, configuration, &mut *output)
}
