//! Why items are no problem and no trace. Items and steps are numbered from 1.
use dk_syntax::{Name, NoMemory};
use std::alloc::AllocFailed;
use tptp_text::OutsideKind;

#[derive(Debug, Drop)]
pub enum ProblemFault {
    Outside { item: u32, kind: OutsideKind },
    BadRole { item: u32 },
    FreeVariable { item: u32, name: Name },
    DuplicateName { item: u32 },
    TwoConjectures { item: u32 },
    Memory,
}

/// Why a step's source is not supported.
#[derive(Clone, Copy, Debug, PartialEq, Eq)]
pub enum Unsupported {
    Word,
    Status,
    NoParent,
    ManyParents,
    Mixed,
}

#[derive(Debug, Drop)]
pub enum TraceFault {
    Outside { step: u32, kind: OutsideKind },
    DuplicateName { step: u32 },
    Unsupported { step: u32, kind: Unsupported },
    Memory,
}

impl From<NoMemory> for TraceFault {
    ghost use Rattle.std.specs.Prelude.{◌≡◌};
    ghost use Rattle.tstp_trace.specs.declared.fault.TraceFault.TheVariants.{Memory};

    ghost from_gives = { λ _ fault. fault ≡ Memory };

    fn from(_: NoMemory) -> TraceFault {
        TraceFault::Memory
    }
}

impl<T: Drop> From<AllocFailed<T>> for TraceFault {
    ghost use Rattle.std.specs.Prelude.{◌≡◌};
    ghost use Rattle.tstp_trace.specs.declared.fault.TraceFault.TheVariants.{Memory};

    ghost from_gives = { λ _ fault. fault ≡ Memory };

    fn from(_: AllocFailed<T>) -> TraceFault {
        TraceFault::Memory
    }
}

impl From<NoMemory> for ProblemFault {
    ghost use Rattle.std.specs.Prelude.{◌≡◌};
    ghost use Rattle.tstp_trace.specs.declared.fault.ProblemFault.TheVariants.{Memory};

    ghost from_gives = { λ _ fault. fault ≡ Memory };

    fn from(_: NoMemory) -> ProblemFault {
        ProblemFault::Memory
    }
}

impl<T: Drop> From<AllocFailed<T>> for ProblemFault {
    ghost use Rattle.std.specs.Prelude.{◌≡◌};
    ghost use Rattle.tstp_trace.specs.declared.fault.ProblemFault.TheVariants.{Memory};

    ghost from_gives = { λ _ fault. fault ≡ Memory };

    fn from(_: AllocFailed<T>) -> ProblemFault {
        ProblemFault::Memory
    }
}
