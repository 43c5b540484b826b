// What is said of a refusal.
ghost use Rattle.std.specs.Prelude.{◌≡◌};
ghost use Rattle.reasons.specs.Reasons.{reason_of, on_whole, unknown};

use records::job::Job;

// The sentences; `text` has their words.
#[derive(Clone, Copy)]
pub enum Sentence {
    NoJobs,
    JobBytes,
    ManyJobs,
    ZeroId,
    IdNotAbove,
    ZeroCost,
    CostOverDeadline,
    CostOverPeriod,
    LongPeriod,
    LongDeadline,
    ZeroQuantum,
    EmptyRange,
    LongQuantum,
    SettingBytes,
    SettingCount,
    OtherId,
    NumbersOfNone,
    NoPolicy,
    LevelOutside,
    FifoQuantum,
    QuantumOutside,
    FifoShares,
    Alone,
    NotPlaced,
    EmptyPriorities,
    FewPriorities,
    KernelBytes,
    PriorityOutside,
    KernelPolicy,
    FifoSharesPriority,
    AlonePriority,
    GateJobs,
    GateQuantum,
    Unknown,
}

// A sentence, the place of the record that it is about, 8 where it is about none, and its numbers.
#[derive(Clone, Copy)]
pub struct Reason {
    pub sentence: Sentence,
    pub at: usize,
    pub numbers: [u32; 4],
}

pub(crate) fn reason_of(
    sentence: Sentence,
    at: usize,
    first: u32,
    second: u32,
    third: u32,
) -> Reason
    ensures { result ≡ reason_of sentence at first second third }
{
    Reason {
        sentence,
        at,
        numbers: [first, second, third, 0],
    }
}

pub(crate) fn on_whole(sentence: Sentence, first: u32, second: u32) -> Reason
    ensures { result ≡ on_whole sentence first second }
{
    reason_of(sentence, Job::MOST, first, second, 0)
}

pub(crate) fn unknown() -> Reason
    ensures { result ≡ unknown }
{
    on_whole(Sentence::Unknown, 0, 0)
}
