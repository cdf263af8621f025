//! Why bytes are no development.
ghost use Rattle.std.specs.Prelude.{◌≡◌};
ghost use Rattle.dedukti_read.specs.declared.fault.DkFault.TheVariants.{Memory};

use dk_syntax::{NoMemory, NoRoom};

/// Why bytes are no development, and at which byte the command begins that is none, or has a term that
/// is nested too deep to the side.
#[derive(Clone, Copy, Debug, PartialEq, Eq)]
pub enum DkFault {
    NotDk { at: u64 },
    TooDeep { at: u64 },
    Memory,
}

impl From<NoMemory> for DkFault {
    ghost from_gives = { λ _ e. e ≡ Memory };

    fn from(_e: NoMemory) -> DkFault {
        DkFault::Memory
    }
}

impl<T: Drop> From<NoRoom<T>> for DkFault {
    ghost from_gives = { λ _ e. e ≡ Memory };

    fn from(_e: NoRoom<T>) -> DkFault {
        DkFault::Memory
    }
}
