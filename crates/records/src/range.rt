// The permitted quanta.
ghost use Rattle.std.specs.Prelude.{◌≡◌};
ghost use Rattle.records.specs.Refusals.{answer};
ghost use Rattle.records.specs.Ranges.{range_of, range_tests, new_range_answer};

use crate::refusal::Refusal;

// The lowest and the highest quantum.
#[derive(Clone, Copy)]
pub struct Range {
    pub low: u8,
    pub high: u8,
}

impl Range {
    // The longest quantum, in ticks.
    pub const LONGEST_QUANTUM: u8 = 64;

    // What stands where there is no range.
    pub const BLANK: Range = Range { low: 0, high: 0 };

    // A range, or refusal 6.
    pub fn new(low: u8, high: u8) -> Result<Range, Refusal>
        ensures { new_range_answer result ≡ answer (range_tests low high) (range_of low high) }
    {
        if low < 1 {
            return Err(Refusal::QuantumRange);
        }
        if high < low {
            return Err(Refusal::QuantumRange);
        }
        if Range::LONGEST_QUANTUM < high {
            return Err(Refusal::QuantumRange);
        }
        Ok(Range { low, high })
    }
}
