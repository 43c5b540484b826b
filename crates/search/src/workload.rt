// The jobs of a table with the utilisation of each, and the bound of a job.
ghost use Rattle.std.specs.Prelude.{◌≡◌, ◌<◌};
ghost use Rattle.sets.specs.Sets.{has};
ghost use Rattle.records.specs.Limits.{most_jobs};
ghost use Rattle.response.specs.Demand.{lesser};
ghost use Rattle.search.specs.Search.{plain_workload, workload, first_decides, bound_by, one_bound};

use crate::quanta::other_quanta;
use crate::unassignable;
use finishes::capacity::{self, Table};
use records::job::Job;

// What bounds are found from. Another crate can make one only by `plain` or `new`.
#[derive(Clone, Copy)]
pub struct Workload {
    pub jobs: [Job; Job::MOST],
    // The utilisation of each job.
    pub(crate) utilisations: [u32; Job::MOST],
    // Jobs of which none is served alone below the others: such a job needs no second bound where the others are above it or beside it.
    pub(crate) unassignable: u8,
    // The response of which the first instance is sought; 0 where the bound is, as `is_sought` (runs/specs/Runs) and callers of `run` have it.
    pub(crate) sought: u16,
}

// Whether the first bound is the bound, for a reason that is known without the second.
fn first_decides(unassignable: u8, layer: u8, above: u8, job: usize) -> bool
    requires { job < most_jobs }
    ensures { result ≡ first_decides most_jobs unassignable (has layer) (has above) job }
{
    let neighbours = sets::remove(layer, job);
    if neighbours == 0 {
        return true;
    }
    if !sets::contains(unassignable, job) {
        return false;
    }
    sets::is_within(
        sets::remove(unassignable, job),
        sets::join(above, neighbours),
    )
}

// The lesser of two bounds, one that is 0 giving way to the other, since a bound of 0 is none. No entry.
pub fn lesser(first: u16, second: u16) -> u16
    ensures { result ≡ lesser first second }
{
    if second == 0 {
        return first;
    }
    if first == 0 {
        return second;
    }
    first.min(second)
}

impl Workload {
    // No job is known to be unassignable. No entry; it judges nothing: any jobs make a workload.
    pub fn plain(jobs: [Job; Job::MOST]) -> Workload
        ensures { result ≡ plain_workload jobs }
    {
        let utilisations = capacity::utilisations_of(jobs);
        Workload {
            jobs,
            utilisations,
            unassignable: 0,
            sought: 0,
        }
    }

    // With the jobs that are unassignable, for callers that ask for the bounds of many sets. No entry; it judges nothing.
    pub fn new(jobs: [Job; Job::MOST]) -> Workload
        ensures { result ≡ workload jobs }
    {
        let plain = Workload::plain(jobs);
        Workload {
            unassignable: unassignable::unassignable_jobs(plain),
            ..plain
        }
    }

    // The bound of the job at a place, in a layer with a set above: the lesser of its two bounds. The second is the bound of the job
    // alone with its neighbours above too. No entry; it judges nothing: its contract says what any numbers give.
    pub fn bound(self, quanta: [u8; Job::MOST], layer: u8, above: u8, job: usize) -> u16
        ensures { result ≡ bound_by self quanta (has layer) (has above) job }
    {
        if Job::MOST <= job {
            return 0;
        }
        let entry = self.jobs[job];
        let quantum = quanta[job];
        let others = other_quanta(quanta, layer, job);
        let table = Table {
            jobs: self.jobs,
            utilisations: self.utilisations,
        };
        let first = runs::run_for(table, above, quantum, others, entry, self.sought);
        if first_decides(self.unassignable, layer, above, job) {
            return first;
        }
        let all = sets::join(above, sets::remove(layer, job));
        let alone = sets::single(job);
        lesser(first, self.bound(quanta, alone, all, job))
    }

    // The first bound of the job at a place, in a layer with a set above; where a response is sought, the number of its instances up to the
    // first that has it. The job is taken for unassignable, so that `bound` leaves out the second bound. No entry; it judges nothing.
    pub fn run(self, quanta: [u8; Job::MOST], layer: u8, above: u8, job: usize, sought: u16) -> u16
        ensures { result ≡ one_bound (record { jobs = self.jobs; utilisations = self.utilisations; unassignable = self.unassignable; sought = sought }) quanta (has layer) (has above) job }
    {
        let first_alone = Workload {
            unassignable: sets::single(job),
            sought,
            ..self
        };
        first_alone.bound(quanta, layer, above, job)
    }
}
