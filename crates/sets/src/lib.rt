// Sets of at most eight jobs as the bits of one byte: the list's first job is 1, the second 2, the third 4 and so on.
#![tactic(auto)]

ghost use Rattle.std.specs.Prelude.{◌≡◌};
ghost use Rattle.sets.specs.Sets.{has, single, insert, join, rest, remove, within, size, lowest, first_jobs};

pub mod order;

// The places of a set: one for each bit.
pub const PLACES: usize = 8;

// Whether the job at this place is in the set.
pub fn contains(set: u8, job: usize) -> bool
    ensures { result ≡ has set job }
{
    if PLACES <= job {
        return false;
    }
    (set >> job) & 1 == 1
}

// The set of one job; empty past the last place.
pub fn single(job: usize) -> u8
    ensures { result ≡ single job }
{
    if PLACES <= job {
        return 0;
    }
    1u8 << job
}

// The set with one job more.
pub fn insert(set: u8, job: usize) -> u8
    ensures { result ≡ insert set job }
{
    set | single(job)
}

// The members of either set.
pub fn join(set: u8, other: u8) -> u8
    ensures { result ≡ join set other }
{
    set | other
}

// The members of `set` that are not in `part`.
pub fn rest(set: u8, part: u8) -> u8
    ensures { result ≡ rest set part }
{
    set & !part
}

// The set without one job.
pub fn remove(set: u8, job: usize) -> u8
    ensures { result ≡ remove set job }
{
    rest(set, single(job))
}

// Whether each member of `part` is in `set`.
pub fn is_within(part: u8, set: u8) -> bool
    ensures { result ≡ within part set }
{
    part & set == part
}

// The number of members.
pub fn size(set: u8) -> u32
    ensures { result ≡ size set }
{
    u8::count_ones(set)
}

// The lowest member; 8 where the set is empty.
pub fn lowest(set: u8) -> usize
    ensures { result ≡ lowest set }
{
    u8::trailing_zeros(set) as usize
}

// The set of the first `count` jobs.
pub fn first_jobs(count: usize) -> u8
    ensures { result ≡ first_jobs count }
{
    if PLACES <= count {
        return 255;
    }
    (1u8 << count) - 1
}
