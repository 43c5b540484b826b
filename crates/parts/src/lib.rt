// The parts of a bound: where its ticks go (02, E6). The instance that decides is sought again from the bound that was found, so that the
// search for bounds carries no instance; its finish follows from the bound.
#![tactic(auto)]

ghost use Rattle.std.specs.Prelude.{◌≡◌, cond, ◌+◌, ◌-◌, ◌*◌, ◌^◌, ◌<◌, ◌≤◌, eqb};
ghost use Rattle.sets.specs.Sets.{has, single, join};
ghost use Rattle.records.specs.Limits.{most_jobs};
ghost use Rattle.response.specs.Demand.{ceil_div, most_instances, first_bound, second_bound};
ghost use Rattle.response.specs.Breakdown.{parts_at, first_parts, second_parts, parts};
ghost use Rattle.finishes.specs.Finishes.{longest_time};
ghost use Rattle.search.specs.Search.{plain_workload, one_bound};

use finishes::demand;
use records::job::Job;
use response::parts::Parts;
use search::workload::Workload;
use search::{quanta, workload};

pub mod table;

// What the layer adds for so much own work: its cycles, rounded up, times the other quanta; nothing without a quantum.
fn layer_share(work: u32, quantum: u8, others: u16) -> u64
    ensures { (result ≡ ceil_div work quantum * others) × (result < 2 ^ 48) }
{
    if quantum == 0 {
        return 0;
    }
    let cycles = (work as u64 + (quantum as u64 - 1)) / (quantum as u64);
    cycles * (others as u64)
}

// The finish of the last of the first `count` instances of a job, whose response is the bound.
fn finish_of(job: Job, count: u32, bound: u16) -> u32
    requires { (0 < count) × (count ≤ most_instances) × (job.delay ≤ bound + (count - 1) * job.period) }
    ensures { (result ≡ bound + (count - 1) * job.period - job.delay) × (result ≤ longest_time) }
{
    bound as u32 + (count - 1) * (job.period as u32) - job.delay as u32
}

// The parts at the last of the first `count` instances of a job, with what its layer and the jobs above add; `which` is the number of the
// bound, as the parts have it.
fn parts_at(job: Job, count: u32, which: u8, share: u64, above: u64) -> Parts
    requires { (0 < count) × (count ≤ most_instances) × (share < 2 ^ 32) × (above < 2 ^ 32) }
    ensures { result ≡ parts_at job (count - 1) which share above }
{
    let instance = count - 1;
    let own = count * (job.cost as u32);
    let taken = instance * (job.period as u32);
    let delay = job.delay as u32;
    Parts {
        instance: instance as u8,
        which,
        own,
        share: share as u32,
        above: above as u32,
        delay,
        taken,
    }
}

// A job at a place, in a layer with a set above: what its bound follows from.
#[derive(Clone, Copy)]
pub(crate) struct Layered {
    pub(crate) workload: Workload,
    pub(crate) quanta: [u8; Job::MOST],
    pub(crate) layer: u8,
    pub(crate) above: u8,
    pub(crate) job: usize,
    ghost plain: { workload ≡ plain_workload workload.jobs },
    ghost placed: { job < most_jobs },
}

impl Layered {
    // The parts of the first bound.
    fn first_parts(&self, bound: u16) -> Parts
        requires { (0 < bound) × (bound ≡ first_bound self.now.workload.jobs self.now.quanta (has self.now.layer) (has self.now.above) self.now.job) }
        ensures { result ≡ first_parts self.now.workload.jobs self.now.quanta (has self.now.layer) (has self.now.above) self.now.job }
    {
        let workload = self.workload;
        let entry = workload.jobs[self.job];
        let quantum = self.quanta[self.job];
        let others = quanta::other_quanta(self.quanta, self.layer, self.job);
        let count = workload.run(self.quanta, self.layer, self.above, self.job, bound) as u32;
        let finish = finish_of(entry, count, bound);
        let work = count * (entry.cost as u32);
        let share = layer_share(work, quantum, others);
        let from_above = demand::work_by(workload.jobs, self.above, finish);
        parts_at(entry, count, 1, share, from_above)
    }

    // The parts of the second bound, which is the first of the job alone with its neighbours above too.
    fn second_parts(&self, bound: u16) -> Parts
        requires { (0 < bound) × (bound ≡ second_bound self.now.workload.jobs self.now.quanta (has self.now.layer) (has self.now.above) self.now.job) }
        ensures { result ≡ second_parts self.now.workload.jobs self.now.quanta (has self.now.layer) (has self.now.above) self.now.job }
    {
        let workload = self.workload;
        let above = self.above;
        let entry = workload.jobs[self.job];
        let alone = sets::single(self.job);
        let neighbours = sets::remove(self.layer, self.job);
        let all = sets::join(above, neighbours);
        let count = workload.run(self.quanta, alone, all, self.job, bound) as u32;
        let finish = finish_of(entry, count, bound);
        let beside = demand::work_by(workload.jobs, neighbours, finish);
        let above_alone = demand::work_by(workload.jobs, above, finish);
        parts_at(entry, count, 2, beside, above_alone)
    }

    // The second bound, from the first, which it is without neighbours.
    fn second_bound(&self, neighbours: u8, first: u16) -> u16
        ensures { result ≡ cond (eqb neighbours 0) first (one_bound (record { jobs = self.now.workload.jobs; utilisations = self.now.workload.utilisations; unassignable = self.now.workload.unassignable; sought = 0 }) self.now.quanta (has (single self.now.job)) (has (join self.now.above neighbours)) self.now.job) }
    {
        if neighbours == 0 {
            return first;
        }
        let alone = sets::single(self.job);
        let all = sets::join(self.above, neighbours);
        self.workload.run(self.quanta, alone, all, self.job, 0)
    }

    // The parts of the bound.
    pub(crate) fn parts(&self) -> Parts
        ensures { result ≡ parts self.now.workload.jobs self.now.quanta (has self.now.layer) (has self.now.above) self.now.job }
    {
        let neighbours = sets::remove(self.layer, self.job);
        let first = self
            .workload
            .run(self.quanta, self.layer, self.above, self.job, 0);
        let second = self.second_bound(neighbours, first);
        let bound = workload::lesser(first, second);
        if bound == 0 {
            return Parts::NONE;
        }
        if bound == first {
            return self.first_parts(bound);
        }
        self.second_parts(bound)
    }
}
