// The plan of a table of jobs.
ghost use Rattle.std.specs.Prelude.{◌≡◌};
ghost use Rattle.records.specs.Jobs.{listed};
ghost use Rattle.assignment.specs.Plan.{plan as plan_of};
ghost use Rattle.planner.specs.Questions.{Sound};
ghost use Rattle.planner.specs.Plans.{plan_in, planned, TablePromise, answered, put_plan};

use crate::question::{QuantaSearch, Question};
use crate::{Planned, levels};
use configuration::setting::Setting;
use marker::table::BOUND_SIZE;
use records::call::Call;
use records::job::Job;
use records::record;
use records::refusal::Refusal;
use search::workload::Workload;

// The plan of a table: the placed set's number, the count of sets considered, and by place the settings and the bounds.
#[derive(Clone, Copy)]
pub struct TablePlan {
    pub placed: u8,
    pub considered: u16,
    pub settings: [Setting; Job::MOST],
    pub bounds: [u16; Job::MOST],
}

// Plans a call's jobs for its range, both accepted: the sets in their order, a quantum for each job.
fn plan_jobs(call: Call) -> TablePlan
    requires { Sound call.jobs.table call.jobs.count call.range }
    ensures { plan_in call.jobs.count result ≡ plan_of (listed call.jobs) call.range.low call.range.high }
{
    let jobs = call.jobs.table;
    let n = call.jobs.count;
    let question = Question {
        workload: Workload::new(jobs),
        n,
        range: call.range,
        search: QuantaSearch::PerJob,
    };
    let all = sets::first_jobs(n);
    let sums = periods::sums::sums_of(jobs, n);
    let alone = periods::subsets::subsets_of(&sums, all, 1);
    let singles = alone.sets;
    let count = alone.count;
    let progress = levels::plan_levels(question, &sums, &singles[..count]);
    let settings = progress.settings;
    let bounds = progress.bounds;
    TablePlan {
        placed: sets::rest(all, progress.left),
        considered: progress.considered,
        settings,
        bounds,
    }
}

// Plans a call's jobs for its range. No entry; it judges them as the entry does (1, 2, 3, 5, 6), and writes nothing.
pub fn plan_table(call: Call) -> Result<TablePlan, Refusal>
    ensures { TablePromise call.jobs.table call.jobs.count call.range (planned call.jobs.count result) }
{
    records::judge::judge_question(call)?;
    Ok(plan_jobs(call))
}

// The same, with the configuration and the bounds written to the two outputs. No entry; it judges the outputs too (12), after the others.
pub fn put_plan(call: Call, configuration: &mut [u8], bounds: &mut [u8]) -> Result<Planned, Refusal>
    ensures { answered result configuration.new bounds.new ≡ put_plan call.jobs.table call.jobs.count call.range configuration.old bounds.old }
{
    records::judge::judge_question(call)?;
    let n = call.jobs.count;
    if configuration.len() < Setting::SIZE * n {
        return Err(Refusal::OutputLength);
    }
    if bounds.len() < BOUND_SIZE * n {
        return Err(Refusal::OutputLength);
    }
    let plan = plan_jobs(call);
    record::write(&plan.settings[..n], &mut *configuration)?;
    record::write(&plan.bounds[..n], &mut *bounds)?;
    Ok(Planned {
        placed: plan.placed,
        considered: plan.considered,
    })
}
