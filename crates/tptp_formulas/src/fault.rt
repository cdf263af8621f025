//! Why nothing was read.
ghost use Rattle.tptp_formulas.specs.declared.fault.BodyFault.TheVariants.{Memory as NoBody};
ghost use Rattle.std.specs.Prelude.{◌≡◌};
ghost use Rattle.tptp_formulas.specs.declared.fault.ReadError.TheVariants.{Memory};

use dk_syntax::{NoMemory, NoRoom};
use std::alloc::{AllocError, AllocFailed};

/// Why nothing was read.
#[derive(Clone, Copy, Debug, PartialEq, Eq)]
pub enum ReadError {
    Memory,
    /// The tokens don't begin as the grammar says.
    Syntax,
}

impl From<AllocError> for ReadError {
    ghost from_gives = { λ _ e. e ≡ Memory };

    fn from(_: AllocError) -> ReadError {
        ReadError::Memory
    }
}

impl From<NoMemory> for ReadError {
    ghost from_gives = { λ _ e. e ≡ Memory };

    fn from(_: NoMemory) -> ReadError {
        ReadError::Memory
    }
}

impl<T: Drop> From<NoRoom<T>> for ReadError {
    ghost from_gives = { λ _ e. e ≡ Memory };

    fn from(_: NoRoom<T>) -> ReadError {
        ReadError::Memory
    }
}

impl<T: Drop> From<AllocFailed<T>> for ReadError {
    ghost from_gives = { λ _ e. e ≡ Memory };

    fn from(_: AllocFailed<T>) -> ReadError {
        ReadError::Memory
    }
}

/// Why a formula that was read has no body.
#[derive(Clone, Copy, Debug, PartialEq, Eq)]
pub enum BodyFault {
    Memory,
    /// The closed formula is deeper than 1,000.
    TooDeep,
}

impl From<NoMemory> for BodyFault {
    ghost from_gives = { λ _ e. e ≡ NoBody };

    fn from(_: NoMemory) -> BodyFault {
        BodyFault::Memory
    }
}
