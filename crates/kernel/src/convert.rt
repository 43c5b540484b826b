// Settings as kernel records, and back.
ghost use Rattle.std.specs.Prelude.{◌≡◌, map, take};
ghost use Rattle.configuration.specs.Settings.{setting_table};
ghost use Rattle.kernel.specs.KernelRecords.{to_kernel_record, to_setting, kernel_table};

use crate::priority;
use crate::priority::{KernelPriority, Level};
use crate::record::KernelRecord;
use configuration::setting::Setting;
use records::job::Job;

fn to_kernel_record(highest: KernelPriority, setting: Setting) -> KernelRecord
    ensures { result ≡ to_kernel_record highest setting }
{
    let priority = priority::priority_of(highest, Level(setting.level));
    KernelRecord {
        id: setting.id,
        policy: setting.policy,
        priority,
        quantum: setting.quantum,
    }
}

fn to_setting(highest: KernelPriority, kernel: KernelRecord) -> Setting
    ensures { result ≡ to_setting highest kernel }
{
    let priority = kernel.priority;
    let level = priority::level_of(highest, priority);
    Setting {
        id: kernel.id,
        level: level.0,
        policy: kernel.policy,
        quantum: kernel.quantum,
    }
}

// The kernel records of the first n settings of a table, which are not judged. No entry; for n past 8 it takes all 8 settings.
pub fn to_kernel_records(
    settings: [Setting; Job::MOST],
    n: usize,
    highest: KernelPriority,
) -> [KernelRecord; Job::MOST]
    ensures { result ≡ kernel_table (map (to_kernel_record highest) (take n settings)) }
{
    let count = Job::at_most(n);
    let mut kernels = [KernelRecord::BLANK; Job::MOST];
    for i in 0..count {
        kernels[i] = to_kernel_record(highest, settings[i]);
    }
    kernels
}

// The settings of the first n kernel records of a table, which are not judged. No entry; for n past 8 it takes all 8 records. Its loop is its own: a
// trait for the two ways would be longer.
pub fn to_settings(
    kernels: [KernelRecord; Job::MOST],
    n: usize,
    highest: KernelPriority,
) -> [Setting; Job::MOST]
    ensures { result ≡ setting_table (map (to_setting highest) (take n kernels)) }
{
    let count = Job::at_most(n);
    let mut settings = [Setting::BLANK; Job::MOST];
    for i in 0..count {
        settings[i] = to_setting(highest, kernels[i]);
    }
    settings
}
