//! Why bytes are no development.
ghost use Rattle.std.specs.Prelude.{◌≡◌};
ghost use Rattle.lp_read.specs.declared.fault.LpFault.TheVariants.{Memory};

use dk_syntax::{NoMemory, NoRoom};

/// Why bytes are no development, and at which byte the command begins that is none, or has a term that
/// is nested too deep to the side.
#[derive(Clone, Copy, Debug, PartialEq, Eq)]
pub enum LpFault {
    NotLp { at: u64 },
    TooDeep { at: u64 },
    Memory,
}

impl From<NoMemory> for LpFault {
    ghost from_gives = { λ _ e. e ≡ Memory };

    fn from(_e: NoMemory) -> LpFault {
        LpFault::Memory
    }
}

impl<T: Drop> From<NoRoom<T>> for LpFault {
    ghost from_gives = { λ _ e. e ≡ Memory };

    fn from(_e: NoRoom<T>) -> LpFault {
        LpFault::Memory
    }
}
