// The bounds of a configuration, and the marker.
#![tactic(auto)]

ghost use Rattle.std.specs.Prelude.{◌≡◌};
ghost use Rattle.records.specs.Jobs.{listed};
ghost use Rattle.records.specs.Refusals.{verdict};
ghost use Rattle.marker.specs.Marks.{bounds_outcome, mark_answer, mark_hand_in, mark_outcome};

use records::call::Call;
use records::refusal::Refusal;

pub mod levels;
pub mod table;

// The bounds of a configuration block, full or not, in the output.
pub fn bounds(
    jobs: &[u8],
    low: u8,
    high: u8,
    configuration: &[u8],
    output: &mut [u8],
) -> Result<(), Refusal>
    ensures { (verdict result, output.new) ≡ bounds_outcome jobs.now low high configuration.now output.old }
{
    let call = records::call::read_call(jobs, low, high)?;
    let settings = configuration::block::read_settings(call, configuration)?;
    table::put_bounds(call.jobs, settings.table, &mut *output)?;
    Ok(())
}

// Marks a configuration block for a call's jobs and range: whether it passes. No entry; it judges the block and the output alone (7 to 12),
// whatever the jobs and the range are, and for more than 8 jobs it takes the table's 8.
pub fn mark_hand_in(call: Call, configuration: &[u8], output: &mut [u8]) -> Result<bool, Refusal>
    ensures { (mark_answer result, output.new) ≡ mark_hand_in (listed call.jobs) call.range.low call.range.high configuration.now output.old }
{
    let settings = configuration::block::read_full(call, configuration)?;
    let bounds = table::put_bounds(call.jobs, settings.table, &mut *output)?;
    Ok(table::none_zero(bounds, call.jobs.count))
}

// Marks a configuration block: whether it passes, with the bounds in the output.
pub fn mark(
    jobs: &[u8],
    low: u8,
    high: u8,
    configuration: &[u8],
    output: &mut [u8],
) -> Result<bool, Refusal>
    ensures { (mark_answer result, output.new) ≡ mark_outcome jobs.now low high configuration.now output.old }
{
    // 01 asks for this form here: let .. else takes the call, with its count of jobs, out of the reader's answer, and else returns its refusal.
    let asked = records::call::read_call(jobs, low, high);
    let Ok(call) = asked else {
        return asked.and(Ok(false));
    };
    mark_hand_in(call, configuration, &mut *output)
}
