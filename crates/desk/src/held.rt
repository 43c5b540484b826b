// An edit in a table that is held by value, for callers that have no slice of jobs to lend. docs/ARCHITECTURE.md names `edit_held`, so it stays
// beside `edit`.
ghost use Rattle.std.specs.Prelude.{◌≡◌, ◌≤◌};
ghost use Rattle.desk.specs.Edits.{roomy, held_answer, edit_first, edit_held};

use records::job::Job;
use records::refusal::Refusal;

// The entries of a held table: more than a call accepts.
pub const ROOM: usize = Job::MOST + 2;

// The answer, and the table after the edit, which a refusal leaves as it was and gives back too.
#[derive(Clone, Copy)]
pub struct Edited {
    pub answer: Result<(), Refusal>,
    pub jobs: [Job; ROOM],
}

// Edits one of the first n jobs.
#[tactic(auto, unfolding(crate::specs::Edits::edit_first))]
fn edit_first(
    mut jobs: [Job; ROOM],
    n: usize,
    place: usize,
    cost: u16,
    period: u16,
    deadline: u16,
) -> Edited
    requires { n ≤ roomy }
    ensures { held_answer result ≡ edit_first jobs n place cost period deadline }
{
    let answer = crate::edit(&mut jobs[..n], place, cost, period, deadline);
    Edited { answer, jobs }
}

// The same for any n, for programs that hold a table and lend none. No entry; refusals 1, 4 and 5, and all entries count where n is more
// than there are.
pub fn edit_held(
    jobs: [Job; ROOM],
    n: usize,
    place: usize,
    cost: u16,
    period: u16,
    deadline: u16,
) -> Edited
    ensures { held_answer result ≡ edit_held jobs n place cost period deadline }
{
    if ROOM < n {
        return edit_first(jobs, ROOM, place, cost, period, deadline);
    }
    edit_first(jobs, n, place, cost, period, deadline)
}
