// The tables of jobs, of settings and of kernel records that rows stand for.
ghost use Rattle.std.specs.Prelude.{◌≡◌, map, take};
ghost use Rattle.records.specs.Limits.{most_jobs};
ghost use Rattle.records.specs.Records.{table};
ghost use Rattle.records.specs.Jobs.{blank_job};
ghost use Rattle.configuration.specs.Settings.{blank_setting};
ghost use Rattle.kernel.specs.KernelRecords.{blank_kernel};
ghost use Rattle.lists.specs.declared.fields.Row.{Row};
ghost use Rattle.lists.specs.Lists.{job_from, setting_from, kernel_from};

use crate::fields::Row;
use configuration::setting::Setting;
use kernel::priority::KernelPriority;
use kernel::record::KernelRecord;
use records::job::Job;

// What a row stands for. No entry; it judges nothing.
pub trait FromRow: Copy {
    ghost BLANK: { Self };

    ghost from: { Row → Self };

    // An entry of a table past its rows.
    const BLANK: Self;

    fn from_row(row: Row) -> Self
        ensures { result ≡ from row };
}

impl FromRow for Job {
    ghost BLANK = { blank_job };

    ghost from = { job_from };

    const BLANK: Job = Job::BLANK;

    fn from_row(row: Row) -> Job {
        Job {
            id: (row.first % 256) as u8,
            delay: (row.fifth % 256) as u8,
            cost: row.second,
            period: row.third,
            deadline: row.fourth,
        }
    }
}

impl FromRow for Setting {
    ghost BLANK = { blank_setting };

    ghost from = { setting_from };

    const BLANK: Setting = Setting::BLANK;

    fn from_row(row: Row) -> Setting {
        Setting {
            id: (row.first % 256) as u8,
            level: (row.second % 256) as u8,
            policy: (row.third % 256) as u8,
            quantum: (row.fourth % 256) as u8,
        }
    }
}

impl FromRow for KernelRecord {
    ghost BLANK = { blank_kernel };

    ghost from = { kernel_from };

    const BLANK: KernelRecord = KernelRecord::BLANK;

    fn from_row(row: Row) -> KernelRecord {
        KernelRecord {
            id: (row.first % 256) as u8,
            policy: (row.second % 256) as u8,
            priority: KernelPriority((row.third % 256) as u8),
            quantum: (row.fourth % 256) as u8,
        }
    }
}

// What the first n rows stand for, which is not judged. No entry; for n past 8 it takes all 8 rows.
pub fn table_from<R: FromRow>(rows: [Row; Job::MOST], n: usize) -> [R; Job::MOST]
    ensures { result ≡ table most_jobs R.BLANK (map R.from (take n rows)) }
{
    let mut table = [R::BLANK; Job::MOST];
    for (i, row) in rows[..Job::at_most(n)].iter().enumerate() {
        table[i] = R::from_row(*row);
    }
    table
}
