// The way in's first part: a job block and a range, as an accepted question or as its refusal.
ghost use Rattle.std.specs.Prelude.{◌≡◌};
ghost use Rattle.records.specs.Calls.{asked, read_call};

use crate::block;
use crate::block::JobTable;
use crate::range::Range;
use crate::refusal::Refusal;

// What a call asks: its jobs and its range.
#[derive(Clone, Copy)]
pub struct Call {
    pub jobs: JobTable,
    pub range: Range,
}

// Reads a job block and a range. No entry; it judges both (1, 2, 3, 5, 6), as every call with a range does first.
pub fn read_call(jobs: &[u8], low: u8, high: u8) -> Result<Call, Refusal>
    ensures { asked result ≡ read_call jobs.now low high }
{
    let jobs = block::read_jobs(jobs)?;
    let range = Range::new(low, high)?;
    Ok(Call { jobs, range })
}
