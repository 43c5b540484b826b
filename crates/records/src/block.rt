// Reads and writes job blocks.
ghost use Rattle.std.specs.Prelude.{◌≡◌, min, take};
ghost use Rattle.records.specs.Limits.{most_jobs};
ghost use Rattle.records.specs.Refusals.{counted};
ghost use Rattle.records.specs.Records.{write_records};
ghost use Rattle.records.specs.Jobs.{job_size, job_bytes, job_count, jobs_in, job_table, jobs_outcome, read_jobs, write_jobs};

use crate::job::Job;
use crate::refusal::Refusal;
use crate::{judge, record};

// The jobs of a block: how many they are, and a table that is blank past them, memory being fixed. Settings and kernel records have a table
// of their own each: a generic struct has no array of its type parameter.
#[derive(Clone, Copy)]
pub struct JobTable {
    pub count: usize,
    pub table: [Job; Job::MOST],
}

// Reads a job block.
pub fn read_jobs(jobs: &[u8]) -> Result<JobTable, Refusal>
    ensures { jobs_outcome result ≡ read_jobs jobs.now }
{
    let size = jobs.len();
    judge::judge_size(size)?;
    let count = size / Job::SIZE;
    let table = record::read(jobs);
    judge::judge_jobs(table, count)?;
    Ok(JobTable { count, table })
}

// Writes the first n jobs of a table as a job block.
pub fn write_jobs(table: [Job; Job::MOST], n: usize, output: &mut [u8]) -> Result<usize, Refusal>
    ensures { (counted result, output.new) ≡ write_jobs n table output.old }
{
    judge::judge_table(table, n)?;
    record::write(&table[..n], &mut *output)
}
