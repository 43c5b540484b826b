// The search for a finish: some plain steps of the iteration, then steps with an estimate.
ghost use Rattle.std.specs.Prelude.{◌≡◌, suc, ◌+◌, ◌*◌, ◌/◌, ◌<◌, ◌≤◌, leb};
ghost use Rattle.sets.specs.Sets.{has, Collects};
ghost use Rattle.records.specs.Limits.{most_jobs};
ghost use Rattle.records.specs.Jobs.{job_at};
ghost use Rattle.response.specs.Demand.{interference};
ghost use Rattle.finishes.specs.Finishes.{whole, climb, far_time, time_for, longest_time, time_within};

use crate::capacity::{Capacity, Table, WHOLE};
use crate::demand;
use records::job::Job;

// The last time that is sought: no deadline of the 64 instances of a job lies past it.
pub(crate) const LONGEST_TIME: u32 = 4194240;

// The plain steps before estimates are made, so that short searches need none.
const PLAIN_STEPS: u32 = 4;

// The part of a time up to which a period counts as short.
const SHORT_PART: u64 = 256;

// The jobs of a table with periods up to the longest that counts as short.
fn short_jobs(jobs: [Job; Job::MOST], longest: u64) -> u8
    ensures { Collects most_jobs (λ i. leb (job_at jobs i).period longest) result }
{
    let mut set: u8 = 0;
    for (i, job) in jobs.iter().enumerate() {
        if job.period as u64 <= longest {
            set = sets::insert(set, i);
        }
    }
    set
}

// The iteration from a start up to a limit, for the jobs above in two sets: between two steps those with short periods count by what
// they leave of the processor and by what their delays carry.
fn climb(
    jobs: [Job; Job::MOST],
    long: u8,
    short: u8,
    spare: u64,
    carry: u32,
    own: u64,
    limit: u32,
    start: u64,
) -> u32
    requires { (0 < spare) × (own ≤ longest_time) × (limit ≤ longest_time) }
    ensures { (result ≡ climb (λ t. own + interference jobs (has long) t + interference jobs (has short) t) (λ t. ((own + interference jobs (has long) t) * whole + carry) / spare) limit (suc limit) start) × (result ≤ limit) × ((result ≡ 0 → ⊥) → start ≤ result) }
{
    let end = limit as u64 + 1;
    // Most times are passed over, so no range has those that are tried.
    let mut t = start;
    while t < end {
        let now = t as u32;
        let works = demand::works_of(jobs, long, short, now);
        let part = own + works.long;
        let next = part + works.short;
        if next <= t {
            if next == t {
                return now;
            }
            return 0;
        }
        t = next.max((part * WHOLE + carry as u64) / spare);
    }
    0
}

impl Table {
    // The least time from a start up to a limit that equals the own demand with the interference of the set above, or 0.
    fn far_time(self, above: u8, own: u64, limit: u32, start: u64) -> u32
        requires { (own ≤ longest_time) × (limit ≤ longest_time) }
        ensures { (result ≡ far_time self (has above) own limit start) × (result ≤ limit) × ((result ≡ 0 → ⊥) → start ≤ result) }
    {
        let long = sets::rest(above, short_jobs(self.jobs, start / SHORT_PART));
        let short = sets::rest(above, long);
        let capacity = self.capacity_of(short);
        let spare = capacity.spare.max(1);
        climb(
            self.jobs,
            long,
            short,
            spare,
            capacity.carry,
            own,
            limit,
            start,
        )
    }

    // The least time up to a limit that equals the own demand with the interference of the set above, or 0, as `time_for` finds it for an
    // own demand and a limit that are no later than the last time that is sought.
    fn time_within(self, above: u8, left: Capacity, own: u64, limit: u32, before: u32) -> u32
        requires { (own ≤ longest_time) × (limit ≤ longest_time) }
        ensures { (result ≡ time_for self (has above) left.spare left.carry own limit before) × (result ≤ limit) × ((result ≡ 0 → ⊥) → before ≤ result) }
    {
        let mut t: u64 = 1;
        if own != 0 {
            if left.spare == 0 {
                return 0;
            }
            t = (own * WHOLE + left.carry as u64) / left.spare;
        }
        t = t.max(before as u64);
        let late = limit as u64 + 1;
        for _ in 0..PLAIN_STEPS {
            if late <= t {
                return 0;
            }
            let now = t as u32;
            let next = own + demand::interference(self.jobs, above, now);
            if next <= t {
                if next == t {
                    return now;
                }
                return 0;
            }
            t = next;
        }
        self.far_time(above, own, limit, t)
    }

    // The least time up to a limit that equals the own demand with the interference of the set above, or 0; no such time is below `before`.
    // `left` is what the set leaves of the processor, and what its delays carry. It is no entry and judges nothing: a limit past the last
    // time that is sought gives 0, and its contract says what other numbers give.
    pub fn time_for(self, above: u8, left: Capacity, own: u64, limit: u32, before: u32) -> u32
        ensures { (result ≡ time_within self (has above) left.spare left.carry own limit before) × (result ≤ limit) × ((result ≡ 0 → ⊥) → before ≤ result) }
    {
        if LONGEST_TIME < limit {
            return 0;
        }
        if (limit as u64) < own {
            return 0;
        }
        self.time_within(above, left, own, limit, before)
    }
}
