// Reads kernel blocks.
ghost use Rattle.std.specs.Prelude.{◌≡◌};
ghost use Rattle.records.specs.Jobs.{listed};
ghost use Rattle.kernel.specs.Conversions.{kernels_outcome, read_kernels};

use crate::judge;
use crate::priority::KernelPriority;
use crate::record::KernelRecord;
use records::call::Call;
use records::job::Job;
use records::record;
use records::refusal::Refusal;

// The kernel records of a block: how many they are, and a table that is blank past them, memory being fixed.
#[derive(Clone, Copy)]
pub struct KernelTable {
    pub count: usize,
    pub table: [KernelRecord; Job::MOST],
}

// Reads a kernel block for a call's jobs and range and the highest priority. No entry; it judges the block alone (7, 8, 14, 9, 10), whatever
// the jobs, the range and the priority are, and for more than 8 jobs it takes the table's 8.
pub fn read_kernels(
    call: Call,
    highest: KernelPriority,
    kernel: &[u8],
) -> Result<KernelTable, Refusal>
    ensures { kernels_outcome result ≡ read_kernels (listed call.jobs) call.range.low call.range.high highest kernel.now }
{
    let count = Job::at_most(call.jobs.count);
    if kernel.len() != KernelRecord::SIZE * count {
        return Err(Refusal::ConfigurationSize);
    }
    let table = record::read(kernel);
    judge::judge_kernels(call, table, highest)?;
    Ok(KernelTable { count, table })
}
