// The levels, from the lowest up.
ghost use Rattle.std.specs.Prelude.{◌≡◌, ◌+◌, ◌^◌, ◌<◌, take};
ghost use Rattle.sets.specs.Sets.{size};
ghost use Rattle.records.specs.Limits.{most_jobs};
ghost use Rattle.records.specs.Records.{table};
ghost use Rattle.periods.specs.ByPeriods.{by_periods};
ghost use Rattle.configuration.specs.Settings.{setting_table};
ghost use Rattle.response.specs.Demand.{bound};
ghost use Rattle.assignment.specs.Plan.{setting_in, place as place_of, start as start_of};
ghost use Rattle.planner.specs.Questions.{listed, Laid};
ghost use Rattle.planner.specs.Stages.{Sorted, settings_with, bounds_with, progress_of, stage_of, last_stage, count_all};

use crate::choice;
use crate::choice::Choice;
use crate::question::Question;
use configuration::setting::Setting;
use periods::sums::ALL;
use records::job::Job;

// The plan so far: the jobs not yet placed, the number of sets considered, the settings and the bounds.
#[derive(Clone, Copy)]
pub struct Progress {
    pub left: u8,
    pub considered: u16,
    pub settings: [Setting; Job::MOST],
    pub bounds: [u16; Job::MOST],
}

// The setting of a job in a layer of so many jobs: a set of one takes policy 1 and quantum 0.
fn setting_in(id: u8, level: u8, size: u32, quantum: u8) -> Setting
    ensures { result ≡ setting_in id level size quantum }
{
    if size == 1 {
        Setting {
            id,
            level,
            policy: Setting::FIFO,
            quantum: 0,
        }
    } else {
        Setting {
            id,
            level,
            policy: Setting::ROUND_ROBIN,
            quantum,
        }
    }
}

// The settings when a set takes a level: its jobs take that level and their quanta, the others keep their settings.
fn settings_with(
    question: &Question,
    settings: [Setting; Job::MOST],
    level: u8,
    set: u8,
    quanta: [u8; Job::MOST],
) -> [Setting; Job::MOST]
    ensures { result ≡ setting_table (settings_with question.now settings level set quanta) }
{
    let workload = question.workload;
    let jobs = workload.jobs;
    let size = sets::size(set);
    let mut next = [Setting::BLANK; Job::MOST];
    for k in 0..question.n {
        next[k] = if sets::contains(set, k) {
            setting_in(jobs[k].id, level, size, quanta[k])
        } else {
            settings[k]
        };
    }
    next
}

// The bounds when a set takes a level with another above: its jobs get theirs, the others keep what they have. The loop is that of
// `settings_with` with other values; one function for both, with a closure for the value, would have more clauses than both have lines.
fn bounds_with(
    question: &Question,
    bounds: [u16; Job::MOST],
    set: u8,
    above: u8,
    quanta: [u8; Job::MOST],
) -> [u16; Job::MOST]
    requires { Laid question.now set above }
    ensures { result ≡ table most_jobs 0 (bounds_with question.now bounds set above quanta) }
{
    let workload = question.workload;
    let mut next = [0u16; Job::MOST];
    for k in 0..question.n {
        next[k] = if sets::contains(set, k) {
            workload.bound(quanta, set, above, k)
        } else {
            bounds[k]
        };
    }
    next
}

// The set that was chosen takes the level.
fn place(question: &Question, progress: Progress, level: u8, choice: Choice) -> Progress
    requires { (progress.left < 2 ^ question.now.n) × (choice.set < 2 ^ question.now.n) × (progress.considered + choice.considered < 2 ^ 16) }
    ensures { result ≡ progress_of (place_of (listed question.now) level choice.set (take question.now.n choice.quanta) (stage_of progress)) (progress.considered + choice.considered) }
{
    let set = choice.set;
    let quanta = choice.quanta;
    let settings = progress.settings;
    let bounds = progress.bounds;
    let above = sets::rest(progress.left, set);
    let settings_next = settings_with(question, settings, level, set, quanta);
    let bounds_next = bounds_with(question, bounds, set, above, quanta);
    Progress {
        left: above,
        considered: progress.considered + choice.considered,
        settings: settings_next,
        bounds: bounds_next,
    }
}

// No job is placed.
fn start(question: &Question) -> Progress
    ensures { result ≡ progress_of (start_of (listed question.now)) 0 }
{
    let workload = question.workload;
    let jobs = workload.jobs;
    let mut settings = [Setting::BLANK; Job::MOST];
    for (k, job) in jobs[..question.n].iter().enumerate() {
        settings[k] = Setting {
            id: job.id,
            level: 0,
            policy: Setting::NOT_PLACED,
            quantum: 0,
        };
    }
    Progress {
        left: sets::first_jobs(question.n),
        considered: 0,
        settings,
        bounds: [0u16; Job::MOST],
    }
}

// From the lowest level up, each takes the first set that can be taken.
pub(crate) fn plan_levels(question: Question, sums: &[u32; ALL], singles: &[u8]) -> Progress
    requires { Sorted question sums.now singles.now }
    ensures { result ≡ progress_of (last_stage question (by_periods (listed question))) (count_all question (by_periods (listed question))) }
{
    let mut progress = start(&question);
    for level in (1..=question.n).rev() {
        let choice = choice::choose(&question, sums, singles, progress.left);
        if choice.set == 0 {
            progress.considered += choice.considered;
            return progress;
        }
        progress = place(&question, progress, level as u8, choice);
    }
    progress
}
