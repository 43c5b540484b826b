// Where the ticks of a configuration's bounds go (02, E6).
#![tactic(auto)]

ghost use Rattle.records.specs.Refusals.{verdict};
ghost use Rattle.breakdown.specs.Promises.{BreakdownPromise};

use records::refusal::Refusal;

pub mod block;
mod bytes;

// The parts of the bounds of a configuration block, full or not, in the output.
pub fn breakdown(
    jobs: &[u8],
    low: u8,
    high: u8,
    configuration: &[u8],
    output: &mut [u8],
) -> Result<(), Refusal>
    ensures { BreakdownPromise jobs.now low high configuration.now output.old (verdict result, output.new) }
{
    let call = records::call::read_call(jobs, low, high)?;
    let settings = configuration::block::read_settings(call, configuration)?;
    let each = parts::table::breakdown_of(call.jobs.table, settings.table, call.jobs.count);
    block::write_parts(each, call.jobs.count, &mut *output)?;
    Ok(())
}
