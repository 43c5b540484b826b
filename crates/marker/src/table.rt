// The bounds of tables of jobs and settings, whether these are a configuration or not, and whether each job is served. A count past the
// tables' size takes all entries.
ghost use Rattle.std.specs.Prelude.{◌≡◌, min, ltb, get_or, take, IfOk};
ghost use Rattle.sets.specs.Places.{every};
ghost use Rattle.records.specs.Limits.{most_jobs};
ghost use Rattle.records.specs.Records.{table};
ghost use Rattle.records.specs.Jobs.{listed};
ghost use Rattle.records.specs.Refusals.{handed};
ghost use Rattle.marker.specs.Bounds.{bounds_of, all_served};
ghost use Rattle.marker.specs.Marks.{put_bounds};

use crate::levels;
use configuration::setting::Setting;
use records::block::JobTable;
use records::job::Job;
use records::record;
use records::refusal::Refusal;
use search::workload::Workload;

// The size of a bound, in bytes.
pub const BOUND_SIZE: usize = 2;

// The bounds of the first n jobs. No entry; it judges nothing: any jobs and settings have the bounds that the definition gives.
pub fn bounds_of(
    jobs: [Job; Job::MOST],
    settings: [Setting; Job::MOST],
    n: usize,
) -> [u16; Job::MOST]
    ensures { result ≡ table most_jobs 0 (bounds_of (take n jobs) (take n settings)) }
{
    let count = Job::at_most(n);
    let workload = Workload::plain(jobs);
    let mut bounds = [0u16; Job::MOST];
    for k in 0..count {
        bounds[k] = levels::bound_of(workload, settings, count, k);
    }
    bounds
}

// Whether none of the first n bounds is 0. No entry.
pub fn none_zero(bounds: [u16; Job::MOST], n: usize) -> bool
    ensures { result ≡ every (λ i. ltb 0 (get_or bounds i 0)) (min n most_jobs) }
{
    let count = Job::at_most(n);
    bounds[..count].iter().all(|bound| *bound != 0)
}

// Whether each of the first n jobs is served. No entry; it judges nothing.
pub fn all_served(jobs: [Job; Job::MOST], settings: [Setting; Job::MOST], n: usize) -> bool
    ensures { result ≡ all_served (take n jobs) (take n settings) }
{
    none_zero(bounds_of(jobs, settings, n), n)
}

// Writes the bounds of jobs with their settings, and gives them: refusal 12.
pub(crate) fn put_bounds(
    jobs: JobTable,
    settings: [Setting; Job::MOST],
    output: &mut [u8],
) -> Result<[u16; Job::MOST], Refusal>
    ensures written { (handed result (λ bounds. tt), output.new) ≡ put_bounds (listed jobs) (take jobs.count settings) output.old }
    ensures given { IfOk result (λ bounds. bounds ≡ table most_jobs 0 (bounds_of (listed jobs) (take jobs.count settings))) }
{
    let count = Job::at_most(jobs.count);
    // Bounds are not found before refusal 12 is known.
    if output.len() < BOUND_SIZE * count {
        return Err(Refusal::OutputLength);
    }
    let bounds = bounds_of(jobs.table, settings, jobs.count);
    record::write(&bounds[..count], &mut *output)?;
    Ok(bounds)
}
