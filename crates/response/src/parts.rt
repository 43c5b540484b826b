// The parts of a bound (02, E6).

// In 02's order: the first instance that reaches the bound, which of the two bounds decided (1 or 2), own work, layer share, work from
// above, the delay J, and the j·T taken off.
#[derive(Clone, Copy)]
pub struct Parts {
    pub instance: u8,
    // A number, as the record has it; of a bound of 0 it is 0.
    pub which: u8,
    pub own: u32,
    pub share: u32,
    pub above: u32,
    pub delay: u32,
    pub taken: u32,
}

impl Parts {
    // The parts of a bound of 0.
    pub const NONE: Parts = Parts {
        instance: 0,
        which: 0,
        own: 0,
        share: 0,
        above: 0,
        delay: 0,
        taken: 0,
    };
}
