// What can be wrong with a line of a text.
#[derive(Clone, Copy, Debug, PartialEq, Eq)]
pub enum Fault {
    // The word at a place of its line, counted from 1, is no number, or is above the limit that stands beside it.
    NotANumber(u8),
    TooLarge(u8, u16),
    // The word for the policy of a setting is neither a name nor a number of one byte.
    NotAPolicy,
    // The word for the policy of a kernel record is no name of one.
    NotAPolicyName,
    // A carriage return stands within it.
    LoneReturn,
    // It has not as many words as a job, a setting, a kernel record or a range has.
    JobWords,
    SettingWords,
    KernelWords,
    RangeWords,
    // It has a row more than a table has entries, or says a range a second time.
    TooMany,
    SecondRange,
}
