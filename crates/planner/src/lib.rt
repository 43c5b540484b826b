// The planner: from the lowest level up, the first set of jobs that can be taken with the rest above.
#![tactic(auto)]

ghost use Rattle.planner.specs.Plans.{answered, Promise};

use records::refusal::Refusal;

mod choice;
mod levels;
mod quanta;
mod question;
pub mod table;

// What the planner answers: the placed set's number and the count of sets considered.
#[derive(Clone, Copy)]
pub struct Planned {
    pub placed: u8,
    pub considered: u16,
}

// Plans a job block for a range of quanta: the configuration and the bounds, in the two outputs.
pub fn plan(
    jobs: &[u8],
    low: u8,
    high: u8,
    configuration: &mut [u8],
    bounds: &mut [u8],
) -> Result<Planned, Refusal>
    ensures { Promise jobs.now low high configuration.old bounds.old (answered result configuration.new bounds.new) }
{
    let call = records::call::read_call(jobs, low, high)?;
    table::put_plan(call, &mut *configuration, &mut *bounds)
}
