// The unassignable jobs: none of them is served alone below the others.
ghost use Rattle.std.specs.Prelude.{◌≡◌, ◌<◌};
ghost use Rattle.records.specs.Limits.{most_jobs};
ghost use Rattle.search.specs.Search.{drops, drop_from, unassignable_of};

use crate::workload::Workload;
use records::job::Job;

// Enough rounds: each but the last drops a job.
const ROUNDS: u32 = 9;

// Whether a job of a set is dropped from it: it has no cost, or it is served alone below the others.
fn is_dropped(workload: Workload, set: u8, job: usize) -> bool
    requires { job < most_jobs }
    ensures { result ≡ drops workload set job }
{
    if !sets::contains(set, job) {
        return false;
    }
    let entry = workload.jobs[job];
    if entry.cost == 0 {
        return true;
    }
    let alone = sets::single(job);
    let others = sets::remove(set, job);
    0 < workload.bound([0u8; Job::MOST], alone, others, job)
}

// The set without the jobs that are dropped, the last of them first.
fn drop_served(workload: Workload, set: u8) -> u8
    ensures { result ≡ drop_from (drops workload) most_jobs set }
{
    let mut kept = set;
    for job in (0..Job::MOST).rev() {
        if is_dropped(workload, kept, job) {
            kept = sets::remove(kept, job);
        }
    }
    kept
}

// The jobs that are left when no more are dropped.
pub(crate) fn unassignable_jobs(workload: Workload) -> u8
    ensures { result ≡ unassignable_of workload }
{
    let mut set = sets::first_jobs(Job::MOST);
    for _ in 0..ROUNDS {
        let kept = drop_served(workload, set);
        if kept == set {
            return set;
        }
        set = kept;
    }
    0
}
