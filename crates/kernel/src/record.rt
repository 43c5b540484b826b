// The kernel record of a job: one record of what a loader reads.
ghost use Rattle.std.specs.Prelude.{◌≡◌};
ghost use Rattle.std.proofs.Common.{rules};
ghost use Rattle.kernel.specs.KernelRecords.{kernel_of, kernel_bytes, blank_kernel};
ghost use Rattle.kernel.specs.RecordLaws.{kernel-width, kernel-own};

use crate::priority::KernelPriority;
use records::record::{FromRecord, ToRecord};

#[derive(Clone, Copy)]
pub struct KernelRecord {
    pub id: u8,
    // A byte, as in a setting.
    pub policy: u8,
    pub priority: KernelPriority,
    pub quantum: u8,
}

impl KernelRecord {
    // The size of a kernel record, in bytes.
    pub const SIZE: usize = 4;

    // An entry of a table that holds no record.
    pub const BLANK: KernelRecord = KernelRecord {
        id: 0,
        policy: 0,
        priority: KernelPriority(0),
        quantum: 0,
    };
}

impl ToRecord<{ KernelRecord::SIZE }> for KernelRecord {
    ghost bytes = { kernel_bytes };

    ghost sized = { Prim.search rules };

    ghost width = { kernel-width };

    fn to_bytes(self) -> [u8; KernelRecord::SIZE] {
        [self.id, self.policy, self.priority.0, self.quantum]
    }
}

impl FromRecord<{ KernelRecord::SIZE }> for KernelRecord {
    ghost read = { kernel_of };

    ghost blank = { blank_kernel };

    ghost sized = { Prim.search rules };

    ghost own = { kernel-own };

    fn blank() -> KernelRecord {
        KernelRecord::BLANK
    }

    fn from_bytes(bytes: &[u8; KernelRecord::SIZE]) -> KernelRecord {
        KernelRecord {
            id: bytes[0],
            policy: bytes[1],
            priority: KernelPriority(bytes[2]),
            quantum: bytes[3],
        }
    }
}
