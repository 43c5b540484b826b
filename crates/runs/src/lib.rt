// The run of a job's instances: the largest response up to the first instance that finishes by its next release, its delay counted, which
// is one of the two bounds.
#![tactic(auto)]

ghost use Rattle.std.specs.Prelude.{◌≡◌, ◌*◌, ◌^◌, ◌<◌, ◌≤◌};
ghost use Rattle.sets.specs.Sets.{has};
ghost use Rattle.response.specs.Demand.{ceil_div};
ghost use Rattle.finishes.specs.Finishes.{whole};
ghost use Rattle.runs.specs.Runs.{own_demand, is_sought, largest_by, runs_on, run_for};

use finishes::capacity::{Capacity, Table, WHOLE};
use records::job::Job;

// The most instances that a bound goes over.
const INSTANCES: u32 = 64;

// Whether the layer asks for more than is spare of the processor: then no instance finishes by its next release.
// The quantum and the sum of the others stay two numbers, as `run_for` and the definitions take them: a struct would make clauses longer.
fn runs_on(spare: u64, quantum: u8, others: u16, job: Job) -> bool
    requires { spare ≤ whole }
    ensures { result ≡ runs_on spare quantum others job }
{
    let held = (job.period as u64) * (quantum as u64) * spare;
    0 < quantum && held < (job.cost as u64) * (quantum as u64 + others as u64) * WHOLE
}

// The cycles of so much work: the work divided by the quantum, rounded up; none without a quantum. Why it is not the rounding up of
// `finishes` stands there, at `ceil_div`.
fn cycles_of(work: u32, quantum: u8) -> u32
    requires { work < 2 ^ 31 }
    ensures { (result ≡ ceil_div work quantum) × (result ≤ work) }
{
    if quantum == 0 {
        return 0;
    }
    (work + (quantum as u32 - 1)) / (quantum as u32)
}

// The own demand of so many instances of a job: their work, and the layer's share for it.
fn own_demand(cost: u32, count: u32, quantum: u8, others: u16) -> u64
    requires { (cost < 2 ^ 16) × (count ≤ 64) }
    ensures { result ≡ own_demand quantum others (count * cost) }
{
    let work = count * cost;
    let cycles = cycles_of(work, quantum);
    work as u64 + (cycles as u64) * (others as u64)
}

// Whether a response is the one that is sought; none is, where that is 0.
fn is_sought(sought: u16, response: u32) -> bool
    ensures { result ≡ is_sought sought response }
{
    0 < sought && response == sought as u32
}

// The largest response of a job up to the first instance that finishes by its next release; 0 where a finish does not exist by the
// instance's deadline, or where the last instance still runs past its next release. Each finish counts with the job's delay. Where a
// response is sought, the number of instances up to the first that has it.
fn largest_response(
    table: Table,
    above: u8,
    left: Capacity,
    quantum: u8,
    others: u16,
    job: Job,
    sought: u16,
) -> u16
    ensures { result ≡ largest_by table (has above) left.spare left.carry quantum others job sought }
{
    let cost = job.cost as u32;
    let period = job.period as u32;
    let deadline = job.deadline as u32;
    let delay = job.delay as u32;
    let mut largest: u32 = 0;
    let mut before: u32 = 0;
    for instance in 0..INSTANCES {
        let release = instance * period;
        let own = own_demand(cost, instance + 1, quantum, others);
        let limit = (release + deadline).saturating_sub(delay);
        let finish = table.time_for(above, left, own, limit, before);
        if finish == 0 {
            return 0;
        }
        let response = finish + delay - release;
        if is_sought(sought, response) {
            return (instance + 1) as u16;
        }
        largest = largest.max(response);
        if finish + delay <= release + period {
            return largest as u16;
        }
        before = finish;
    }
    0
}

// The run of a job beside a sum of other quanta and below a set: its largest response, which is one of the two bounds; or, where a response
// is sought, the number of its instances up to the first that has it. It is no entry and judges nothing: its contract says what any numbers
// give.
pub fn run_for(table: Table, above: u8, quantum: u8, others: u16, job: Job, sought: u16) -> u16
    ensures { result ≡ run_for table (has above) quantum others job sought }
{
    let left = table.capacity_of(above);
    if runs_on(left.spare, quantum, others, job) {
        return 0;
    }
    largest_response(table, above, left, quantum, others, job, sought)
}
