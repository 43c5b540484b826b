// Why a call is past the limits of a box: refusal 15.
ghost use Rattle.std.specs.Prelude.{◌≡◌, ◌≤◌};
ghost use Rattle.records.specs.Limits.{most_jobs};
ghost use Rattle.reasons.specs.Reasons.{past_reason, limits_reason};

use crate::reason;
use crate::reason::{Reason, Sentence};
use limits::Limits;
use records::job::Job;

fn past_reason(limits: Limits, n: usize, high: u8) -> Reason
    requires { n ≤ most_jobs }
    ensures { result ≡ past_reason limits n high }
{
    if limits.jobs < n {
        return reason::on_whole(Sentence::GateJobs, n as u32, limits.jobs as u32);
    }
    reason::on_whole(Sentence::GateQuantum, high as u32, limits.quantum as u32)
}

// Why a call of n jobs and a range up to `high` gets the refusal of this number, which may be any byte, from a box with limits: the clause
// holds for each. No entry.
pub fn limits_reason(number: u8, limits: Limits, n: usize, high: u8) -> Reason
    ensures { result ≡ limits_reason number limits n high }
{
    if number == 15 {
        return past_reason(limits, Job::at_most(n), high);
    }
    reason::unknown()
}
