// The way in with priorities: a job block, a range and the lowest and the highest priority, as an accepted question or as its refusal.
ghost use Rattle.std.specs.Prelude.{◌≡◌};
ghost use Rattle.records.specs.Calls.{asked};
ghost use Rattle.kernel.specs.Conversions.{read_loader_call};

use crate::judge;
use crate::priority::KernelPriority;
use records::call::Call;
use records::refusal::Refusal;

// Reads a job block and a range, with the priorities. No entry; it judges the three (1, 2, 3, 5, 6, 13).
pub fn read_call(
    jobs: &[u8],
    low: u8,
    high: u8,
    lowest: KernelPriority,
    highest: KernelPriority,
) -> Result<Call, Refusal>
    ensures { asked result ≡ read_loader_call jobs.now low high lowest highest }
{
    let call = records::call::read_call(jobs, low, high)?;
    judge::judge_priorities(call.jobs.count, lowest, highest)?;
    Ok(call)
}
