// Why a call is turned down.
ghost use Rattle.std.specs.Prelude.{◌≡◌};
ghost use Rattle.records.specs.Refusals.{number};

// A case for each line of 01's list, and for those that 02 adds, in the order of their numbers.
#[derive(Clone, Copy, Debug, PartialEq, Eq)]
pub enum Refusal {
    JobCount = 1,
    JobId,
    IdOrder,
    Place,
    JobTimes,
    QuantumRange,
    ConfigurationSize,
    ConfigurationIds,
    RecordShape,
    LevelSharing,
    NotPlaced,
    OutputLength,
    PriorityRange,
    KernelPriority,
    GateLimits,
}

impl Refusal {
    // The refusal's number. No entry.
    pub fn number(self) -> u8
        ensures { result ≡ number self }
    {
        self as u8
    }
}
