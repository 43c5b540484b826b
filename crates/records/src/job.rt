// A job and its limits.
ghost use Rattle.std.specs.Prelude.{◌≡◌, min};
ghost use Rattle.std.proofs.Common.{rules};
ghost use Rattle.records.specs.Limits.{most_jobs};
ghost use Rattle.records.specs.Refusals.{answer};
ghost use Rattle.records.specs.Jobs.{times_ok, new_job_tests, new_job_answer, job_of, job_bytes, blank_job};
ghost use Rattle.records.specs.RecordLaws.{job-width, job-own};

use crate::record::{FromRecord, ToRecord};
use crate::refusal::Refusal;

#[derive(Clone, Copy)]
pub struct Job {
    pub id: u8,
    // How late its releases may be noticed, in ticks: the release jitter.
    pub delay: u8,
    pub cost: u16,
    pub period: u16,
    pub deadline: u16,
}

impl Job {
    // The longest period, in ticks.
    pub const LONGEST_PERIOD: u16 = 60000;

    // The longest deadline, in ticks; it may be longer than the period.
    pub const LONGEST_DEADLINE: u16 = 60000;

    // The most jobs: as many as a set has places.
    pub const MOST: usize = sets::PLACES;

    // The size of a job record, in bytes.
    pub const SIZE: usize = 8;

    // An entry of a table that holds no job.
    pub const BLANK: Job = Job {
        id: 0,
        delay: 0,
        cost: 0,
        period: 0,
        deadline: 0,
    };

    // How many entries of a table a count takes: all of them, where it is past their number. No entry.
    pub fn at_most(count: usize) -> usize
        ensures { result ≡ min count most_jobs }
    {
        count.min(Job::MOST)
    }

    // Whether refusal 5 lets these numbers by. No entry.
    pub fn times_ok(cost: u16, period: u16, deadline: u16) -> bool
        ensures { result ≡ times_ok cost period deadline }
    {
        if cost < 1 {
            return false;
        }
        if deadline < cost {
            return false;
        }
        if period < cost {
            return false;
        }
        if Job::LONGEST_PERIOD < period {
            return false;
        }
        deadline <= Job::LONGEST_DEADLINE
    }

    // A job, or the first refusal that applies to its numbers.
    pub fn new(id: u8, delay: u8, cost: u16, period: u16, deadline: u16) -> Result<Job, Refusal>
        ensures { new_job_answer result ≡ answer (new_job_tests id cost period deadline) (record { id = id; delay = delay; cost = cost; period = period; deadline = deadline }) }
    {
        if id < 1 {
            return Err(Refusal::JobId);
        }
        if !Job::times_ok(cost, period, deadline) {
            return Err(Refusal::JobTimes);
        }
        Ok(Job {
            id,
            delay,
            cost,
            period,
            deadline,
        })
    }
}

impl ToRecord<{ Job::SIZE }> for Job {
    ghost bytes = { job_bytes };

    ghost sized = { Prim.search rules };

    ghost width = { job-width };

    fn to_bytes(self) -> [u8; Job::SIZE] {
        let [cost_high, cost_low] = self.cost.to_be_bytes();
        let [period_high, period_low] = self.period.to_be_bytes();
        let [deadline_high, deadline_low] = self.deadline.to_be_bytes();
        [
            self.id,
            self.delay,
            cost_high,
            cost_low,
            period_high,
            period_low,
            deadline_high,
            deadline_low,
        ]
    }
}

impl FromRecord<{ Job::SIZE }> for Job {
    ghost read = { job_of };

    ghost blank = { blank_job };

    ghost sized = { Prim.search rules };

    ghost own = { job-own };

    fn blank() -> Job {
        Job::BLANK
    }

    fn from_bytes(bytes: &[u8; Job::SIZE]) -> Job {
        Job {
            id: bytes[0],
            delay: bytes[1],
            cost: u16::from_be_bytes([bytes[2], bytes[3]]),
            period: u16::from_be_bytes([bytes[4], bytes[5]]),
            deadline: u16::from_be_bytes([bytes[6], bytes[7]]),
        }
    }
}
