//! Where bytes go.
ghost use Rattle.std.specs.Prelude.{ℕ, List};
ghost use Rattle.std.specs.declared.option.Option.{Option};
ghost use Rattle.std.specs.Io.{WritesAtMost};
ghost use Rattle.std.specs.Io.KnownBytes.{WriteAppends};
ghost use Rattle.dk_io.specs.Causes.{WriteHasCause};

use crate::failed::Failed;

/// Takes bytes, in order.
pub trait Sink {
    // The bytes taken, where they are told.
    ghost kept: { Self → Option (List ℕ) };

    ghost faults: { Self → ℕ };

    /// Takes a prefix of the bytes, and answers its length. An answer of 0 for bytes that are not
    /// empty is a fault. An error takes nothing.
    fn write(&mut self, bytes: &[u8]) -> Result<usize, Failed>
        ensures bound { WritesAtMost result bytes.now }
        ensures appends { WriteAppends (kept self.old) (kept self.new) result bytes.now }
        ensures cause { WriteHasCause (faults self.old) (faults self.new) bytes.now result };
}
