// What is printed of where the ticks of a configuration's bounds go: for each job the sum in words and a bar drawn to scale.
#![tactic(auto)]

ghost use Rattle.std.specs.Prelude.{◌≡◌, [], ◌∷◌, ◌+◌, ◌^◌, ◌≤◌, ◌<◌, length, IfOk};
ghost use Rattle.records.specs.Limits.{most_jobs};
ghost use Rattle.records.specs.Refusals.{given};
ghost use Rattle.writing.specs.Templates.{rows_to, Wrote};
ghost use Rattle.text.specs.Answers.{told};
ghost use Rattle.marking.specs.Marks.{none_over};
ghost use Rattle.explaining.specs.Explanations.{column_of, cell_of, bar_text, served_text, explain_row, explain_text, explain_outcome};

use configuration::setting::Setting;
use records::job::Job;
use records::refusal::Refusal;
use response::parts::Parts;
use text::answer::Told;

// The size of a buffer that holds what is printed of any jobs.
pub const SIZE: usize = 10930;

// The columns of a bar.
const COLUMNS: u32 = 50;

// The column up to which a time of such a whole reaches; 0 where the whole is 0.
fn column_of(time: u64, whole: u64) -> u64
    requires { time < 2 ^ 34 }
    ensures { result ≡ column_of time whole }
{
    if whole == 0 {
        return 0;
    }
    time * (COLUMNS as u64) / whole
}

// The byte of a column of a bar.
fn cell_of(parts: Parts, deadline: u16, column: u32) -> u8
    ensures { result ≡ cell_of parts deadline column }
{
    let whole = parts.taken as u64 + deadline as u64;
    let here = column as u64;
    let own = parts.own as u64;
    if here < column_of(own, whole) {
        return b'#';
    }
    let layer = own + parts.share as u64;
    if here < column_of(layer, whole) {
        return b'=';
    }
    let above = layer + parts.above as u64;
    if here < column_of(above, whole) {
        return b'-';
    }
    if here < column_of(above + parts.delay as u64, whole) {
        return b'~';
    }
    b'.'
}

// The bar, from a place on.
fn put_bar(output: &mut [u8], from: usize, parts: Parts, deadline: u16) -> usize
    requires { from + 500 ≤ length output.old }
    ensures { Wrote 500 output.old output.new from result (bar_text parts deadline) }
{
    let mut at = from;
    for column in 0..COLUMNS {
        let cell = [cell_of(parts, deadline, column)];
        at = writing::put_template(output, at, &cell, &[]);
    }
    at
}

// The lines of a job that is served.
fn put_served(output: &mut [u8], at: usize, job: Job, parts: Parts, bound: u16) -> usize
    requires { at + 1300 ≤ length output.old }
    ensures { Wrote 1300 output.old output.new at result (served_text job parts bound) }
{
    let after_sum = writing::put_template(
        output,
        at,
        b"job %: % own + % layer + % above + % late - % = % of %\n  ",
        &[
            job.id as u32,
            parts.own,
            parts.share,
            parts.above,
            parts.delay,
            parts.taken,
            bound as u32,
            job.deadline as u32,
        ],
    );
    let after_bar = put_bar(output, after_sum, parts, job.deadline);
    writing::put_template(
        output,
        after_bar,
        b"|  bound %, instance %\n",
        &[parts.which as u32, parts.instance as u32],
    )
}

// The lines of a job with its setting, its parts and its bound.
fn put_job(
    output: &mut [u8],
    at: usize,
    job: Job,
    setting: Setting,
    parts: Parts,
    bound: u16,
) -> usize
    requires { at + 1300 ≤ length output.old }
    ensures { Wrote 1300 output.old output.new at result (explain_row (job ∷ []) (setting ∷ []) (parts ∷ []) (bound ∷ []) 0) }
{
    if bound != 0 {
        return put_served(output, at, job, parts, bound);
    }
    let id = job.id as u32;
    let deadline = job.deadline as u32;
    if setting.level == 0 {
        return writing::put_template(output, at, b"job %: not placed\n", &[id]);
    }
    writing::put_template(
        output,
        at,
        b"job %: no bound up to its deadline %\n",
        &[id, deadline],
    )
}

// The lines of n jobs, from the start of the output on; by places, since a line takes an entry of each of four tables.
fn put_jobs(
    output: &mut [u8],
    jobs: [Job; Job::MOST],
    settings: [Setting; Job::MOST],
    parts: [Parts; Job::MOST],
    bounds: [u16; Job::MOST],
    n: usize,
) -> usize
    requires { (n ≤ most_jobs) × (10400 ≤ length output.old) }
    ensures { Wrote 10400 output.old output.new 0 result (rows_to (explain_row jobs settings parts bounds) n) }
{
    let mut at = 0;
    for k in 0..n {
        at = put_job(output, at, jobs[k], settings[k], parts[k], bounds[k]);
    }
    at
}

// What is printed of n jobs, from the start of the output on.
fn put_explanation(
    output: &mut [u8],
    jobs: [Job; Job::MOST],
    settings: [Setting; Job::MOST],
    parts: [Parts; Job::MOST],
    bounds: [u16; Job::MOST],
    n: usize,
) -> Told
    requires { (n ≤ most_jobs) × (10930 ≤ length output.old) }
    ensures { (told (Ok result) ≡ given (none_over n bounds, (length (rows_to (explain_row jobs settings parts bounds) n), length (explain_text n jobs settings parts bounds)))) × (result.last ≤ result.length) × Wrote 10930 output.old output.new 0 result.length (explain_text n jobs settings parts bounds) }
{
    let last = put_jobs(output, jobs, settings, parts, bounds, n);
    let length = writing::put_template(
        output,
        last,
        b"# own  = layer  - above  ~ late  . spare  | deadline\n",
        &[],
    );
    Told {
        yes: marker::table::none_zero(bounds, n),
        last,
        length,
    }
}

// Where the ticks of the bounds of a configuration block go, full or not, at the start of the output, and whether each job is served.
pub fn explain(
    jobs: &[u8],
    low: u8,
    high: u8,
    configuration: &[u8],
    output: &mut [u8; SIZE],
) -> Result<Told, Refusal>
    ensures { ((told result, output.new) ≡ explain_outcome jobs.now low high configuration.now output.old) × IfOk result (λ t. (t.last ≤ t.length) × (t.length ≤ length output.new)) }
{
    let call = records::call::read_call(jobs, low, high)?;
    let settings = configuration::block::read_settings(call, configuration)?;
    let table = call.jobs.table;
    let n = call.jobs.count;
    let bounds = marker::table::bounds_of(table, settings.table, n);
    let each = parts::table::breakdown_of(table, settings.table, n);
    Ok(put_explanation(
        &mut *output,
        table,
        settings.table,
        each,
        bounds,
        Job::at_most(n),
    ))
}
