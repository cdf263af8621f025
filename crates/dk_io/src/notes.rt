//! Where lines go.
ghost use Rattle.std.specs.Prelude.{ℕ, List, [], ◌∷◌, ◌++◌, OnOk, OnErr};
ghost use Rattle.std.specs.declared.option.Option.{Option};
ghost use Rattle.std.specs.Io.KnownBytes.{Appends, Keeps};
ghost use Rattle.dk_io.specs.Causes.{HasCause};

use crate::failed::Failed;

/// Keeps lines, each with a newline behind it.
pub trait Notes {
    // The text of the lines kept, where it is told.
    ghost kept: { Self → Option (List ℕ) };

    ghost faults: { Self → ℕ };

    /// Keeps this line and a newline, or nothing at an error.
    fn line(&mut self, text: &str) -> Result<(), Failed>
        ensures ok { OnOk result (Appends (kept self.old) (kept self.new) (text.now ++ 10 ∷ [])) }
        ensures err { OnErr result (Keeps (kept self.old) (kept self.new)) }
        ensures cause { HasCause (faults self.old) (faults self.new) result };
}
