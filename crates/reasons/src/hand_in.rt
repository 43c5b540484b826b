// Why a configuration is refused: refusals 7 to 11.
ghost use Rattle.std.specs.Prelude.{◌≡◌, ◌≤◌};
ghost use Rattle.records.specs.Limits.{most_jobs};
ghost use Rattle.reasons.specs.Reasons.{count_reason, quantum_reason, shape_reason, sharing_reason, setting_reason_at, setting_reason, hand_in_reason};

use crate::reason;
use crate::reason::{Reason, Sentence};
use configuration::judge::SettingRule;
use configuration::setting::Setting;
use records::call::Call;
use records::job::Job;
use records::range::Range;

// Refusal 7 of a block of `size` bytes, `bytes` being the sentence where records of 4 bytes do not make up the block.
pub(crate) fn count_reason(bytes: Sentence, size: u32, n: usize) -> Reason
    requires { n ≤ most_jobs }
    ensures { result ≡ count_reason bytes size n }
{
    if size % 4 == 0 {
        return reason::on_whole(Sentence::SettingCount, size / 4, n as u32);
    }
    reason::on_whole(bytes, size, 0)
}

// What is wrong with the quantum of a placed job of this policy, a byte as records have it.
pub(crate) fn quantum_reason(at: usize, range: Range, policy: u8, quantum: u8) -> Reason
    ensures { result ≡ quantum_reason at range.low range.high policy quantum }
{
    if policy == Setting::FIFO {
        return reason::reason_of(Sentence::FifoQuantum, at, quantum as u32, 0, 0);
    }
    reason::reason_of(
        Sentence::QuantumOutside,
        at,
        quantum as u32,
        range.low as u32,
        range.high as u32,
    )
}

// What is wrong with the shape of a setting: its policy, else its level, else its quantum. The number of jobs, n, is cut to 8.
fn shape_reason(at: usize, n: usize, range: Range, setting: Setting) -> Reason
    requires { n ≤ most_jobs }
    ensures { result ≡ shape_reason at n range.low range.high setting }
{
    let level = setting.level as u32;
    if setting.policy == Setting::NOT_PLACED {
        let quantum = setting.quantum as u32;
        return reason::reason_of(Sentence::NumbersOfNone, at, level, quantum, 0);
    }
    if Setting::ROUND_ROBIN < setting.policy {
        return reason::reason_of(Sentence::NoPolicy, at, setting.policy as u32, 0, 0);
    }
    if level == 0 {
        return reason::reason_of(Sentence::LevelOutside, at, level, n as u32, 0);
    }
    if (n as u32) < level {
        return reason::reason_of(Sentence::LevelOutside, at, level, n as u32, 0);
    }
    quantum_reason(at, range, setting.policy, setting.quantum)
}

fn sharing_reason(at: usize, setting: Setting) -> Reason
    ensures { result ≡ sharing_reason at setting }
{
    if setting.policy == Setting::FIFO {
        return reason::reason_of(Sentence::FifoShares, at, setting.level as u32, 0, 0);
    }
    reason::reason_of(Sentence::Alone, at, setting.level as u32, 0, 0)
}

// What is said of a setting; the number of jobs, n, is cut to 8.
fn setting_reason_at(
    rule: SettingRule,
    at: usize,
    n: usize,
    range: Range,
    job: Job,
    setting: Setting,
) -> Reason
    requires { n ≤ most_jobs }
    ensures { result ≡ setting_reason_at rule at n range.low range.high job setting }
{
    match rule {
        SettingRule::Id => {
            reason::reason_of(Sentence::OtherId, at, setting.id as u32, job.id as u32, 0)
        }
        SettingRule::Shape => shape_reason(at, n, range, setting),
        SettingRule::Sharing => sharing_reason(at, setting),
        SettingRule::Placed => {
            reason::reason_of(Sentence::NotPlaced, at, setting.id as u32, 0, 0)
        }
    }
}

fn setting_reason(rule: SettingRule, call: Call, settings: [Setting; Job::MOST]) -> Reason
    ensures { result ≡ setting_reason rule call.jobs.table settings call.jobs.count call.range.low call.range.high }
{
    let jobs = call.jobs.table;
    let count = Job::at_most(call.jobs.count);
    let at = configuration::judge::first_faulty(rule, call, settings);
    if at < Job::MOST {
        let job = jobs[at];
        let setting = settings[at];
        return setting_reason_at(rule, at, count, call.range, job, setting);
    }
    reason::unknown()
}

// Why a configuration block of `size` bytes with these settings, for a call's jobs and range, gets the refusal of this number, which
// may be any byte: the clause holds for each. No entry.
pub fn hand_in_reason(number: u8, size: u32, call: Call, settings: [Setting; Job::MOST]) -> Reason
    ensures { result ≡ hand_in_reason number size call.jobs.table settings call.jobs.count call.range.low call.range.high }
{
    match number {
        7 => count_reason(Sentence::SettingBytes, size, Job::at_most(call.jobs.count)),
        8 => setting_reason(SettingRule::Id, call, settings),
        9 => setting_reason(SettingRule::Shape, call, settings),
        10 => setting_reason(SettingRule::Sharing, call, settings),
        11 => setting_reason(SettingRule::Placed, call, settings),
        _ => reason::unknown(),
    }
}
