// The search for the set that a level takes.
ghost use Rattle.std.specs.Prelude.{◌^◌, ◌≤◌, ◌<◌, length};
ghost use Rattle.periods.specs.ByPeriods.{by_periods};
ghost use Rattle.planner.specs.Questions.{listed};
ghost use Rattle.planner.specs.Stages.{most_sets, Chosen, Sorted};

use crate::quanta;
use crate::question::Question;
use periods::sums::ALL;
use records::job::Job;

// The first set that can be taken, with its quanta, and the number of sets considered. Where none can be taken the set is the
// empty one, 0, since that is what `chosen` of assignment's Plan gives there.
#[derive(Clone, Copy)]
pub struct Choice {
    pub set: u8,
    pub quanta: [u8; Job::MOST],
    pub considered: u16,
}

// Goes through the subsets of the jobs left, in the order of the sequence.
fn first_of(question: &Question, sequence: &[u8], left: u8) -> Choice
    requires { (left < 2 ^ question.now.n) × (length sequence.now ≤ most_sets) }
    ensures { Chosen question.now sequence.now left result }
{
    let mut place = 0;
    let mut missed: u16 = 0;
    while let Some(at) = sets::order::next_subset(sequence, left, place) {
        let set = sequence[at];
        let found = quanta::quanta_for(question, left, set);
        if let Some(quanta) = found {
            let considered = missed + 1;
            return Choice {
                set,
                quanta,
                considered,
            };
        }
        missed += 1;
        place = at + 1;
    }
    Choice {
        set: 0,
        quanta: [0u8; Job::MOST],
        considered: missed,
    }
}

// Goes through the subsets of the jobs left, size by size, each size by larger sum of periods, then by smaller number. The sets of one job
// are given in their order; those of a larger size are put in order when it is reached.
pub(crate) fn choose(question: &Question, sums: &[u32; ALL], singles: &[u8], left: u8) -> Choice
    requires { (left < 2 ^ question.now.n) × Sorted question.now sums.now singles.now }
    ensures { Chosen question.now (by_periods (listed question.now)) left result }
{
    let alone = first_of(question, singles, left);
    if alone.set != 0 {
        return alone;
    }
    let most = sets::size(left) as usize;
    let mut missed = alone.considered;
    for size in 2..=most {
        let found = periods::subsets::subsets_of(sums, left, size);
        let tried = found.sets;
        let count = found.count;
        let choice = first_of(question, &tried[..count], left);
        missed += choice.considered;
        if choice.set != 0 {
            return Choice {
                considered: missed,
                ..choice
            };
        }
    }
    Choice {
        set: 0,
        quanta: [0u8; Job::MOST],
        considered: missed,
    }
}
