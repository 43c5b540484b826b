// The bound of a job, by the levels of a table of settings.
ghost use Rattle.std.specs.Prelude.{◌≡◌, ◌≤◌, ◌<◌, min, take};
ghost use Rattle.sets.specs.Sets.{Collects};
ghost use Rattle.records.specs.Limits.{most_jobs};
ghost use Rattle.search.specs.Search.{plain_workload};
ghost use Rattle.marker.specs.Bounds.{quanta_of, bound_at};
ghost use Rattle.marker.specs.Relations.{standing, stands};

use configuration::setting::Setting;
use records::job::Job;
use search::workload::Workload;

// How a level stands to another.
#[derive(Clone, Copy)]
pub enum Relation {
    Same,
    Above,
}

impl Relation {
    // Whether a level stands so to another; the smaller level is above.
    fn stands(self, level: u8, to: u8) -> bool
        ensures { result ≡ standing self level to }
    {
        match self {
            Relation::Same => level == to,
            Relation::Above => level < to,
        }
    }
}

// The set of the first n jobs whose level stands so to another. No entry; it judges nothing, and for n past 8 it takes all 8 settings.
pub fn level_set(relation: Relation, settings: [Setting; Job::MOST], n: usize, level: u8) -> u8
    ensures { Collects (min n most_jobs) (stands relation settings level) result }
{
    let count = Job::at_most(n);
    let mut set: u8 = 0;
    for (i, setting) in settings[..count].iter().enumerate() {
        if relation.stands(setting.level, level) {
            set = sets::insert(set, i);
        }
    }
    set
}

// The quanta of a configuration. No entry; it judges nothing.
pub fn quanta_of(settings: [Setting; Job::MOST]) -> [u8; Job::MOST]
    ensures { result ≡ quanta_of settings }
{
    let mut quanta = [0u8; Job::MOST];
    for (i, setting) in settings.iter().enumerate() {
        quanta[i] = setting.quantum;
    }
    quanta
}

// The bound of the job at place k of n.
pub(crate) fn bound_of(
    workload: Workload,
    settings: [Setting; Job::MOST],
    n: usize,
    k: usize,
) -> u16
    requires { (n ≤ most_jobs) × (k < n) × (workload ≡ plain_workload workload.jobs) }
    ensures { result ≡ bound_at (take n workload.jobs) settings k }
{
    let setting = settings[k];
    let level = setting.level;
    if level == 0 {
        return 0;
    }
    let layer = level_set(Relation::Same, settings, n, level);
    let above = level_set(Relation::Above, settings, n, level);
    workload.bound(quanta_of(settings), layer, above, k)
}
