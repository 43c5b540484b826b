// The limits of a box, and the way in with limits: a job block and a range, as an accepted question or as its refusal (02, E8).
#![tactic(auto)]

ghost use Rattle.std.specs.Prelude.{◌≡◌};
ghost use Rattle.records.specs.Calls.{asked};
ghost use Rattle.records.specs.Refusals.{answer, verdict};
ghost use Rattle.limits.specs.Boxes.{box_limits, limit_tests, read_limited_call};

use records::call::Call;
use records::job::Job;
use records::range::Range;
use records::refusal::Refusal;

// The most jobs and the highest quantum that a box takes.
#[derive(Clone, Copy)]
pub struct Limits {
    pub jobs: usize,
    pub quantum: u8,
}

impl Limits {
    // The mats' box.
    pub const MATS: Limits = Limits {
        jobs: Job::MOST,
        quantum: Range::LONGEST_QUANTUM,
    };

    // The start gate's box.
    pub const GATE: Limits = Limits {
        jobs: 4,
        quantum: 16,
    };

    // The limits of the start gate, or of the mats, as the command's option has it. No entry.
    pub fn of_box(gate: bool) -> Limits
        ensures { result ≡ box_limits gate }
    {
        if gate { Limits::GATE } else { Limits::MATS }
    }
}

// Judges n jobs and the highest quantum of a range by limits: refusal 15.
fn judge_limits(limits: Limits, n: usize, high: u8) -> Result<(), Refusal>
    ensures { verdict result ≡ answer (limit_tests limits n high) tt }
{
    if limits.jobs < n {
        return Err(Refusal::GateLimits);
    }
    if limits.quantum < high {
        return Err(Refusal::GateLimits);
    }
    Ok(())
}

// Reads a job block and a range for a box with these limits. No entry; it judges the three (1, 2, 3, 5, 6, 15).
pub fn read_call(limits: Limits, jobs: &[u8], low: u8, high: u8) -> Result<Call, Refusal>
    ensures { asked result ≡ read_limited_call limits jobs.now low high }
{
    let call = records::call::read_call(jobs, low, high)?;
    judge_limits(limits, call.jobs.count, high)?;
    Ok(call)
}
