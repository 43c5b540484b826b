// The calls of the entries: what an input frame has given, and the output frame with what is answered and left behind.
use crate::{reply, tables};
use configuration::setting::Setting;
use kernel::priority::KernelPriority;
use planner::Planned;
use records::job::Job;
use records::record;
use records::refusal::Refusal;

// The bytes of a table of settings.
const SETTINGS: usize = Setting::SIZE * Job::MOST;

// A count as a frame has it.
fn counted(answer: Result<usize, Refusal>) -> Result<[u16; 1], Refusal> {
    answer.map(|count| [(count % 65536) as u16])
}

fn judged(answer: Result<(), Refusal>) -> Result<[u16; 0], Refusal> {
    answer.map(|()| [])
}

fn marked(answer: Result<bool, Refusal>) -> Result<[u16; 1], Refusal> {
    answer.map(|passes| [u16::from(passes)])
}

fn planned(answer: Result<Planned, Refusal>) -> Result<[u16; 2], Refusal> {
    answer.map(|plan| [u16::from(plan.placed), plan.considered])
}

pub fn read_jobs(rt: &impl Print, jobs: &[u8]) {
    let read = records::block::read_jobs(jobs);
    // The records of a blank table are zeros.
    let mut bytes = [0u8; tables::TABLE];
    if let Ok(jobs) = read {
        let _ = record::write(&jobs.table, &mut bytes);
    }
    reply::write(rt, counted(read.map(|jobs| jobs.count)), &[&bytes]);
}

pub fn write_jobs(rt: &impl Print, entries: &[u8], count: u16, output: &mut [u8]) {
    let table = record::read(entries);
    let wrote = records::block::write_jobs(table, usize::from(count), output);
    reply::write(rt, counted(wrote), &[output]);
}

pub fn read_configuration(rt: &impl Print, jobs: &[u8], low: u8, high: u8, configuration: &[u8]) {
    let read = configuration::block::read_configuration(jobs, low, high, configuration);
    // The records of a blank table are zeros.
    let mut bytes = [0u8; SETTINGS];
    if let Ok(settings) = read {
        let _ = record::write(&settings.table, &mut bytes);
    }
    reply::write(rt, counted(read.map(|settings| settings.count)), &[&bytes]);
}

pub fn write_configuration(
    rt: &impl Print,
    jobs: &[u8],
    low: u8,
    high: u8,
    entries: &[u8],
    count: u16,
    output: &mut [u8],
) {
    let settings = record::read(entries);
    let wrote = configuration::block::write_configuration(
        jobs,
        low,
        high,
        settings,
        usize::from(count),
        output,
    );
    reply::write(rt, counted(wrote), &[output]);
}

pub fn bounds(
    rt: &impl Print,
    jobs: &[u8],
    low: u8,
    high: u8,
    configuration: &[u8],
    output: &mut [u8],
) {
    let answer = marker::bounds(jobs, low, high, configuration, output);
    reply::write(rt, judged(answer), &[output]);
}

pub fn breakdown(
    rt: &impl Print,
    jobs: &[u8],
    low: u8,
    high: u8,
    configuration: &[u8],
    output: &mut [u8],
) {
    let answer = breakdown::breakdown(jobs, low, high, configuration, output);
    reply::write(rt, judged(answer), &[output]);
}

pub fn mark(
    rt: &impl Print,
    jobs: &[u8],
    low: u8,
    high: u8,
    configuration: &[u8],
    output: &mut [u8],
) {
    let answer = marker::mark(jobs, low, high, configuration, output);
    reply::write(rt, marked(answer), &[output]);
}

pub fn gate_mark(
    rt: &impl Print,
    jobs: &[u8],
    low: u8,
    high: u8,
    configuration: &[u8],
    output: &mut [u8],
) {
    let answer = gate::gate_mark(jobs, low, high, configuration, output);
    reply::write(rt, marked(answer), &[output]);
}

pub fn plan(
    rt: &impl Print,
    jobs: &[u8],
    low: u8,
    high: u8,
    configuration: &mut [u8],
    bounds: &mut [u8],
) {
    let answer = planner::plan(jobs, low, high, configuration, bounds);
    reply::write(rt, planned(answer), &[configuration, bounds]);
}

pub fn gate_plan(
    rt: &impl Print,
    jobs: &[u8],
    low: u8,
    high: u8,
    configuration: &mut [u8],
    bounds: &mut [u8],
) {
    let answer = gate::gate_plan(jobs, low, high, configuration, bounds);
    reply::write(rt, planned(answer), &[configuration, bounds]);
}

pub fn same_bytes(rt: &impl Print, a: &[u8], b: &[u8]) {
    let same = same_bytes::same_bytes(a, b);
    reply::write(rt, Ok([u16::from(same)]), &[]);
}

pub fn edit(rt: &impl Print, slice: &[u8], place: u16, cost: u16, period: u16, deadline: u16) {
    let edited = desk::held::edit_held(
        tables::jobs_in(slice),
        slice.len() / Job::SIZE,
        usize::from(place),
        cost,
        period,
        deadline,
    );
    let bytes = tables::job_bytes(edited.jobs);
    let end = slice.len().min(bytes.len());
    reply::write(rt, judged(edited.answer), &[&bytes[..end]]);
}

pub fn key(rt: &impl Print, jobs: &[u8], low: u8, high: u8) {
    let mut output = [0u8; text::key::SIZE];
    let length = text::key::key(jobs, low, high, &mut output);
    reply::write(rt, Ok([]), &[&output[..length]]);
}

// Each of the two kernel entries has a function, as its frames have a number.
pub fn to_kernel(
    rt: &impl Print,
    jobs: &[u8],
    low: u8,
    high: u8,
    lowest: u8,
    highest: u8,
    configuration: &[u8],
    output: &mut [u8],
) {
    let answer = kernel::to_kernel(
        jobs,
        low,
        high,
        KernelPriority(lowest),
        KernelPriority(highest),
        configuration,
        output,
    );
    reply::write(rt, judged(answer), &[output]);
}

pub fn from_kernel(
    rt: &impl Print,
    jobs: &[u8],
    low: u8,
    high: u8,
    lowest: u8,
    highest: u8,
    kernel: &[u8],
    output: &mut [u8],
) {
    let answer = kernel::from_kernel(
        jobs,
        low,
        high,
        KernelPriority(lowest),
        KernelPriority(highest),
        kernel,
        output,
    );
    reply::write(rt, judged(answer), &[output]);
}
