// How much of the processor jobs take, and what a set of them leaves.
ghost use Rattle.std.specs.Prelude.{◌≡◌, ◌≤◌};
ghost use Rattle.sets.specs.Sets.{has};
ghost use Rattle.finishes.specs.Finishes.{whole, utilisation, utilisations_of, spare_of, carried};

use records::job::Job;

// The whole processor, in the parts by which utilisation is counted.
pub const WHOLE: u64 = 1048576;

// The most that delays are counted to add.
const MOST_CARRIED: u64 = 4294967295;

// A job's utilisation, rounded down; the whole where it is more, and 0 where the period is 0. No entry; it judges nothing.
pub fn utilisation(job: Job) -> u32
    ensures { (result ≡ utilisation job) × (result ≤ whole) }
{
    if job.period == 0 {
        return 0;
    }
    ((job.cost as u64) * WHOLE / (job.period as u64)).min(WHOLE) as u32
}

// The utilisation of each job of a table. No entry; it judges nothing.
pub fn utilisations_of(jobs: [Job; Job::MOST]) -> [u32; Job::MOST]
    ensures { result ≡ utilisations_of jobs }
{
    let mut utilisations = [0u32; Job::MOST];
    for (i, job) in jobs.iter().enumerate() {
        utilisations[i] = utilisation(*job);
    }
    utilisations
}

// The jobs of a table and the utilisation of each.
#[derive(Clone, Copy)]
pub struct Table {
    pub jobs: [Job; Job::MOST],
    pub utilisations: [u32; Job::MOST],
}

// What a set of jobs leaves of the processor, and what their delays add at least to their work, in parts of a tick.
#[derive(Clone, Copy)]
pub struct Capacity {
    pub spare: u64,
    pub carry: u32,
}

impl Table {
    // What a set leaves and what its delays add, in one pass over the places. No entry; it judges nothing: its contract says what any
    // numbers give. It stays out of line: within the search it takes registers from the steps, and plans take longer.
    #[inline(never)]
    pub fn capacity_of(self, set: u8) -> Capacity
        ensures { (result.spare ≡ spare_of self.utilisations (has set)) × (result.spare ≤ whole) × (result.carry ≡ carried self (has set)) }
    {
        let mut taken: u64 = 0;
        let mut carry: u64 = 0;
        for (i, job) in self.jobs.iter().enumerate() {
            if sets::contains(set, i) {
                let parts = self.utilisations[i] as u64;
                taken += parts;
                carry += (job.delay as u64) * parts;
            }
        }
        Capacity {
            spare: WHOLE.saturating_sub(taken),
            carry: carry.min(MOST_CARRIED) as u32,
        }
    }
}
