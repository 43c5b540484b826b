// The exam desk's edit of one job in the table that it has lent.
#![tactic(auto)]

ghost use Rattle.std.specs.Prelude.{◌≡◌};
ghost use Rattle.records.specs.Refusals.{verdict};
ghost use Rattle.desk.specs.Edits.{judged, edit_outcome};

use records::job::Job;
use records::refusal::Refusal;

pub mod held;

// The answer to an edit, by the number of jobs, the place and the new numbers alone.
fn judge(count: usize, place: usize, cost: u16, period: u16, deadline: u16) -> Result<(), Refusal>
    ensures { verdict result ≡ judged count place cost period deadline }
{
    if count < 1 {
        return Err(Refusal::JobCount);
    }
    if Job::MOST < count {
        return Err(Refusal::JobCount);
    }
    if count <= place {
        return Err(Refusal::Place);
    }
    if !Job::times_ok(cost, period, deadline) {
        return Err(Refusal::JobTimes);
    }
    Ok(())
}

// Writes cost, period and deadline of the job at a place.
pub fn edit(
    jobs: &mut [Job],
    place: usize,
    cost: u16,
    period: u16,
    deadline: u16,
) -> Result<(), Refusal>
    ensures { (verdict result, jobs.new) ≡ edit_outcome jobs.old place cost period deadline }
{
    judge(jobs.len(), place, cost, period, deadline)?;
    let job = &mut jobs[place];
    job.cost = cost;
    job.period = period;
    job.deadline = deadline;
    Ok(())
}
