// Tables for the box loader: kernel records, and the conversion of configurations to them and back (02, E5).
#![tactic(auto)]

ghost use Rattle.records.specs.Refusals.{verdict};
ghost use Rattle.kernel.specs.Promises.{ToKernelPromise, FromKernelPromise};

use priority::KernelPriority;
use records::refusal::Refusal;

pub mod block;
pub mod call;
pub mod convert;
pub mod judge;
pub mod priority;
pub mod record;

// Converts a full configuration block to kernel records, in the output.
pub fn to_kernel(
    jobs: &[u8],
    low: u8,
    high: u8,
    lowest: KernelPriority,
    highest: KernelPriority,
    configuration: &[u8],
    output: &mut [u8],
) -> Result<(), Refusal>
    ensures { ToKernelPromise jobs.now low high lowest highest configuration.now output.old (verdict result, output.new) }
{
    let call = call::read_call(jobs, low, high, lowest, highest)?;
    let settings = configuration::block::read_full(call, configuration)?;
    let kernels = convert::to_kernel_records(settings.table, call.jobs.count, highest);
    records::record::write(&kernels[..call.jobs.count], &mut *output)?;
    Ok(())
}

// Converts a kernel block to a configuration block, in the output.
pub fn from_kernel(
    jobs: &[u8],
    low: u8,
    high: u8,
    lowest: KernelPriority,
    highest: KernelPriority,
    kernel: &[u8],
    output: &mut [u8],
) -> Result<(), Refusal>
    ensures { FromKernelPromise jobs.now low high lowest highest kernel.now output.old (verdict result, output.new) }
{
    let call = call::read_call(jobs, low, high, lowest, highest)?;
    let kernels = block::read_kernels(call, highest, kernel)?;
    let settings = convert::to_settings(kernels.table, call.jobs.count, highest);
    records::record::write(&settings[..call.jobs.count], &mut *output)?;
    Ok(())
}
