// Levels and kernel priorities, which run in opposite senses: each has its type, and one becomes the other here alone.
ghost use Rattle.std.specs.Prelude.{◌≡◌};
ghost use Rattle.kernel.specs.Priorities.{priority_of, level_of};

// The level of a configuration: the smaller runs first.
#[derive(Clone, Copy)]
pub struct Level(pub u8);

// The priority of a kernel: the larger runs first.
#[derive(Clone, Copy)]
pub struct KernelPriority(pub u8);

// The priority of a level, level 1 having the highest: highest - v + 1. No entry; level 0, which no placed job has, is taken as level 1,
// and a level past the priority 0 has the priority 0.
pub fn priority_of(highest: KernelPriority, level: Level) -> KernelPriority
    ensures { result ≡ priority_of highest level }
{
    if level.0 < 1 {
        return highest;
    }
    let below = level.0 - 1;
    if highest.0 < below {
        return KernelPriority(0);
    }
    KernelPriority(highest.0 - below)
}

// The level of a priority, the highest having level 1: highest - p + 1. No entry; a priority above the highest is taken as the highest,
// and a level is at most 255.
pub fn level_of(highest: KernelPriority, priority: KernelPriority) -> Level
    ensures { result ≡ level_of highest priority }
{
    if highest.0 < priority.0 {
        return Level(1);
    }
    let below = highest.0 - priority.0;
    if 254 < below {
        return Level(255);
    }
    Level(below + 1)
}
