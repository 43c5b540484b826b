// The setting of a job: one record of a configuration.
ghost use Rattle.std.specs.Prelude.{◌≡◌};
ghost use Rattle.std.proofs.Common.{rules};
ghost use Rattle.configuration.specs.RecordLaws.{setting-width, setting-own};
ghost use Rattle.configuration.specs.Settings.{setting_of, setting_bytes, blank_setting};

use records::record::{FromRecord, ToRecord};

#[derive(Clone, Copy)]
pub struct Setting {
    pub id: u8,
    pub level: u8,
    // A byte, since a block may hold any: what is asked of a policy is defined for every number.
    pub policy: u8,
    pub quantum: u8,
}

impl Setting {
    // The policies: not placed, sched_fifo, sched_rr.
    pub const NOT_PLACED: u8 = 0;

    pub const FIFO: u8 = 1;

    pub const ROUND_ROBIN: u8 = 2;

    // The size of a configuration record, in bytes.
    pub const SIZE: usize = 4;

    // An entry of a table that holds no setting.
    pub const BLANK: Setting = Setting {
        id: 0,
        level: 0,
        policy: Setting::NOT_PLACED,
        quantum: 0,
    };
}

impl ToRecord<{ Setting::SIZE }> for Setting {
    ghost bytes = { setting_bytes };

    ghost sized = { Prim.search rules };

    ghost width = { setting-width };

    fn to_bytes(self) -> [u8; Setting::SIZE] {
        [self.id, self.level, self.policy, self.quantum]
    }
}

impl FromRecord<{ Setting::SIZE }> for Setting {
    ghost read = { setting_of };

    ghost blank = { blank_setting };

    ghost sized = { Prim.search rules };

    ghost own = { setting-own };

    fn blank() -> Setting {
        Setting::BLANK
    }

    fn from_bytes(bytes: &[u8; Setting::SIZE]) -> Setting {
        Setting {
            id: bytes[0],
            level: bytes[1],
            policy: bytes[2],
            quantum: bytes[3],
        }
    }
}
