// The parts of the bounds of tables of jobs and settings, whether these are a configuration or not. A count past the tables' size takes all
// entries.
ghost use Rattle.std.specs.Prelude.{◌≡◌, ◌≤◌, ◌<◌, take};
ghost use Rattle.records.specs.Limits.{most_jobs};
ghost use Rattle.records.specs.Records.{table};
ghost use Rattle.response.specs.Breakdown.{no_parts};
ghost use Rattle.search.specs.Search.{plain_workload};
ghost use Rattle.parts.specs.Breakdowns.{parts_in, breakdown_of};

use crate::Layered;
use configuration::setting::Setting;
use marker::levels;
use marker::levels::Relation;
use records::job::Job;
use response::parts::Parts;
use search::workload::Workload;

// The parts of the bound of the job at place k of n.
fn parts_in(workload: Workload, settings: [Setting; Job::MOST], n: usize, k: usize) -> Parts
    requires { (n ≤ most_jobs) × (k < n) × (workload ≡ plain_workload workload.jobs) }
    ensures { result ≡ parts_in (take n workload.jobs) settings k }
{
    let setting = settings[k];
    let level = setting.level;
    if level == 0 {
        return Parts::NONE;
    }
    let layer = levels::level_set(Relation::Same, settings, n, level);
    let above = levels::level_set(Relation::Above, settings, n, level);
    let layered = Layered {
        workload,
        quanta: levels::quanta_of(settings),
        layer,
        above,
        job: k,
    };
    layered.parts()
}

// The parts of the bounds of the first n jobs. No entry; it judges nothing: any jobs and settings have those that the definition gives.
pub fn breakdown_of(
    jobs: [Job; Job::MOST],
    settings: [Setting; Job::MOST],
    n: usize,
) -> [Parts; Job::MOST]
    ensures { result ≡ table most_jobs no_parts (breakdown_of (take n jobs) (take n settings)) }
{
    let count = Job::at_most(n);
    let workload = Workload::plain(jobs);
    let mut parts = [Parts::NONE; Job::MOST];
    for k in 0..count {
        parts[k] = parts_in(workload, settings, count, k);
    }
    parts
}
