// The sums of periods of all sets of jobs, in one pass: the sets with a job are those of the jobs before it, with its period more.
ghost use Rattle.std.specs.Prelude.{ℕ, ◌+◌, ◌^◌, ◌≤◌, ◌<◌, min, length, get_or};
ghost use Rattle.records.specs.Limits.{most_jobs};
ghost use Rattle.periods.specs.ByPeriods.{period_at};
ghost use Rattle.periods.specs.Sums.{SumsOf, Doubled};

use records::job::Job;

// The number of sets of eight jobs, the empty one too.
pub const ALL: usize = 256;

// The sums of the sets that have one job more than the first `half` sets, after those.
fn add_job(sums: &mut [u32], half: usize, period: u32)
    requires { (half + half ≤ length sums.old) × ((s : ℕ) → s < half → get_or sums.old s 0 + period < 2 ^ 32) }
    ensures { Doubled half period sums.old sums.new }
{
    for set in 0..half {
        sums[half + set] = sums[set] + period;
    }
}

// The sums of the sets of the first n jobs of a table, by set number. No entry; of more than eight jobs it takes the first eight.
pub fn sums_of(jobs: [Job; Job::MOST], n: usize) -> [u32; ALL]
    ensures { SumsOf (period_at jobs) (min n most_jobs) result }
{
    let mut sums = [0u32; ALL];
    let mut half = 1;
    for job in &jobs[..Job::at_most(n)] {
        add_job(&mut sums, half, job.period as u32);
        half *= 2;
    }
    sums
}
