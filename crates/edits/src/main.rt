// Edits of one table, for a stored run: an edit that is done, each refusal, and a neighbour that no job block could have and that stays.
// Each job's delay, which no edit changes, is printed last.
#![tactic(auto)]

use desk::held::ROOM;
use records::job::Job;
use records::refusal::Refusal;

// A piece that cannot be written has nobody to be told to, and the next one is tried all the same.
fn put(rt: &impl Print, text: &[u8]) {
    let _ = rt.write_all(text);
}

fn print_number(rt: &impl Print, number: u16, end: &[u8]) {
    let _ = print!(rt; "{number}");
    put(rt, end);
}

fn print_job(rt: &impl Print, job: Job) {
    print_number(rt, u16::from(job.id), b" ");
    print_number(rt, job.cost, b" ");
    print_number(rt, job.period, b" ");
    print_number(rt, job.deadline, b" ");
    print_number(rt, u16::from(job.delay), b"\n");
}

fn print_answer(rt: &impl Print, answer: Result<(), Refusal>) {
    match answer {
        Ok(()) => put(rt, b"done\n"),
        Err(refusal) => {
            put(rt, b"refused ");
            print_number(rt, u16::from(refusal.number()), b"\n");
        }
    }
}

// Prints what an edit of the first n jobs answers, and the first three jobs after it.
fn print_edit(rt: &impl Print, n: usize, place: usize, cost: u16, period: u16, deadline: u16) {
    let edited = desk::held::edit_held(table(), n, place, cost, period, deadline);
    print_answer(rt, edited.answer);
    for job in &edited.jobs[..3] {
        print_job(rt, *job);
    }
}

// Two jobs, and an entry with id 0 and cost 0 between them.
fn table() -> [Job; ROOM] {
    let mut jobs = [Job::BLANK; ROOM];
    jobs[0] = Job {
        id: 7,
        delay: 3,
        cost: 1,
        period: 4,
        deadline: 4,
    };
    jobs[1] = Job {
        id: 0,
        delay: 255,
        cost: 0,
        period: 9,
        deadline: 60001,
    };
    jobs[2] = Job {
        id: 9,
        delay: 200,
        cost: 2,
        period: 6,
        deadline: 6,
    };
    jobs
}

// The status is 0 also where standard output cannot be written.
fn main(rt: HostRuntime) {
    print_edit(&rt, 3, 2, 3, 12, 10);
    print_edit(&rt, 0, 0, 3, 12, 10);
    print_edit(&rt, 9, 0, 3, 12, 10);
    print_edit(&rt, 3, 3, 3, 12, 10);
    print_edit(&rt, 3, 0, 0, 12, 10);
    print_edit(&rt, 3, 0, 11, 12, 10);
    print_edit(&rt, 3, 0, 3, 9, 10);
    print_edit(&rt, 3, 0, 10, 9, 10);
    print_edit(&rt, 3, 0, 3, 60001, 10);
    print_edit(&rt, 3, 0, 3, 9, 60001);
    print_edit(&rt, 8, 0, 60000, 60000, 60000);
}
