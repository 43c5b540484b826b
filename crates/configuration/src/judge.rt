// Refusals 8 to 11 of settings.
ghost use Rattle.std.specs.Prelude.{◌≡◌, ◌≤◌, ◌<◌, min, take};
ghost use Rattle.sets.specs.Places.{failing};
ghost use Rattle.records.specs.Limits.{most_jobs};
ghost use Rattle.records.specs.Refusals.{answer, verdict};
ghost use Rattle.records.specs.Jobs.{listed};
ghost use Rattle.configuration.specs.Configuration.{placed_level, scheduled, shaped, sharing, may_share, levelled, setting_ok, all_ok, setting_tests};

use crate::setting::Setting;
use records::call::Call;
use records::job::Job;
use records::range::Range;
use records::refusal::Refusal;

// Whether a placed job of n can have the level.
fn is_level(n: usize, level: u8) -> bool
    ensures { result ≡ placed_level n level }
{
    if level < 1 {
        return false;
    }
    level as usize <= n
}

// Whether a placed job has one of the two policies, a byte as records have it, with its quantum. No entry.
pub fn is_scheduled(range: Range, policy: u8, quantum: u8) -> bool
    ensures { result ≡ scheduled range.low range.high policy quantum }
{
    if policy == Setting::FIFO {
        return quantum == 0;
    }
    if policy != Setting::ROUND_ROBIN {
        return false;
    }
    if quantum < range.low {
        return false;
    }
    quantum <= range.high
}

// Whether a setting has one of the three shapes, n being the number of jobs, cut to 8.
fn has_shape(n: usize, range: Range, setting: Setting) -> bool
    ensures { result ≡ shaped n range.low range.high setting }
{
    if setting.policy == Setting::NOT_PLACED {
        if setting.level != 0 {
            return false;
        }
        return setting.quantum == 0;
    }
    if !is_level(n, setting.level) {
        return false;
    }
    is_scheduled(range, setting.policy, setting.quantum)
}

// The number of the first n settings on a level.
fn on_level(settings: [Setting; Job::MOST], n: usize, level: u8) -> usize
    requires { n ≤ most_jobs }
    ensures { result ≡ sharing n settings level }
{
    let mut jobs = 0;
    for i in 0..n {
        let setting = settings[i];
        if setting.level == level {
            jobs += 1;
        }
    }
    jobs
}

// Whether a policy 1 job is alone, and a policy 2 job is not, whatever byte the policy is, `jobs` being the number of jobs where it stands. No entry.
pub fn may_share(policy: u8, jobs: usize) -> bool
    ensures { result ≡ may_share policy jobs }
{
    if policy == Setting::FIFO {
        return jobs == 1;
    }
    if policy == Setting::ROUND_ROBIN {
        return 2 <= jobs;
    }
    true
}

// The same of a setting on its level.
fn is_levelled(settings: [Setting; Job::MOST], n: usize, setting: Setting) -> bool
    requires { n ≤ most_jobs }
    ensures { result ≡ levelled n settings setting }
{
    let jobs = on_level(settings, n, setting.level);
    may_share(setting.policy, jobs)
}

// What a setting is held to: refusals 8, 9, 10 and 11.
#[derive(Clone, Copy)]
pub enum SettingRule {
    Id,
    Shape,
    Sharing,
    Placed,
}

// Whether the rule holds of the setting at place i, n being the number of jobs, cut to 8.
fn setting_ok(
    rule: SettingRule,
    jobs: [Job; Job::MOST],
    settings: [Setting; Job::MOST],
    n: usize,
    range: Range,
    i: usize,
) -> bool
    requires { (n ≤ most_jobs) × (i < most_jobs) }
    ensures { result ≡ setting_ok rule n jobs range.low range.high settings i }
{
    let setting = settings[i];
    match rule {
        SettingRule::Id => {
            let job = jobs[i];
            setting.id == job.id
        }
        SettingRule::Shape => has_shape(n, range, setting),
        SettingRule::Sharing => is_levelled(settings, n, setting),
        SettingRule::Placed => Setting::NOT_PLACED < setting.policy,
    }
}

// The place of the first of the settings of a call's jobs of which the rule does not hold; their number where it holds of each. No entry;
// for a call of more than 8 jobs it takes all 8 settings.
pub fn first_faulty(rule: SettingRule, call: Call, settings: [Setting; Job::MOST]) -> usize
    ensures { result ≡ failing (setting_ok rule (min call.jobs.count most_jobs) call.jobs.table call.range.low call.range.high settings) (min call.jobs.count most_jobs) }
{
    let jobs = call.jobs.table;
    let count = Job::at_most(call.jobs.count);
    for i in 0..count {
        if !setting_ok(rule, jobs, settings, count, call.range, i) {
            return i;
        }
    }
    count
}

// Whether the rule holds of each setting of a call's jobs.
pub(crate) fn all_ok(rule: SettingRule, call: Call, settings: [Setting; Job::MOST]) -> bool
    ensures { result ≡ all_ok rule (listed call.jobs) call.range.low call.range.high (take call.jobs.count settings) }
{
    first_faulty(rule, call, settings) == Job::at_most(call.jobs.count)
}

// Judges the settings of a call's jobs: refusals 8, 9 and 10, which are not those of jobs.
pub(crate) fn judge_settings(call: Call, settings: [Setting; Job::MOST]) -> Result<(), Refusal>
    ensures { verdict result ≡ answer (setting_tests (listed call.jobs) call.range.low call.range.high (take call.jobs.count settings)) tt }
{
    if !all_ok(SettingRule::Id, call, settings) {
        return Err(Refusal::ConfigurationIds);
    }
    if !all_ok(SettingRule::Shape, call, settings) {
        return Err(Refusal::RecordShape);
    }
    if !all_ok(SettingRule::Sharing, call, settings) {
        return Err(Refusal::LevelSharing);
    }
    Ok(())
}
