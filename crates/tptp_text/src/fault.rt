//! Why bytes are no items.
ghost use Rattle.std.specs.Prelude.{◌≡◌};
ghost use Rattle.tptp_text.specs.declared.fault.TptpFault.TheVariants.{Memory};

use dk_syntax::{NoMemory, NoRoom};

/// Why bytes are no items, and at which byte the item begins that is none or is too deep, or for which
/// there is no room.
#[derive(Clone, Copy, Debug, PartialEq, Eq)]
pub enum TptpFault {
    NotTptp { at: u64 },
    TooDeep { at: u64 },
    TooMany { at: u64 },
    Memory,
}

impl From<NoMemory> for TptpFault {
    ghost from_gives = { λ _ e. e ≡ Memory };

    fn from(_e: NoMemory) -> TptpFault {
        TptpFault::Memory
    }
}

impl<T: Drop> From<NoRoom<T>> for TptpFault {
    ghost from_gives = { λ _ e. e ≡ Memory };

    fn from(_e: NoRoom<T>) -> TptpFault {
        TptpFault::Memory
    }
}
