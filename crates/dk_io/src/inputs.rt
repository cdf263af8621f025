//! Files by name.
ghost use Rattle.std.specs.Prelude.{◌≡◌, ℕ, List, OnOk, IfOk};
ghost use Rattle.std.specs.declared.option.Option.{Option};
ghost use Rattle.std.specs.Io.{ReadsAtMost};
ghost use Rattle.dk_io.specs.Causes.{HasCause, HasCauseOr};
ghost use Rattle.dk_io.specs.Outside.{Told, IsAbsent, Starts, Gives};

use crate::failed::Failed;

/// Files by name, read one at a time. After an error nothing is said of what is left until the next
/// `start`.
pub trait Inputs {
    // The bytes of each name, where they are told.
    ghost told: { Self → Told };

    // What is left of the file that was started, where it is told.
    ghost left: { Self → Option (List ℕ) };

    ghost faults: { Self → ℕ };

    /// Makes the whole file of this name what is left.
    fn start(&mut self, name: &str) -> Result<(), Failed>
        ensures same { told self.new ≡ told self.old }
        ensures starts { OnOk result (Starts (told self.old) name.now (left self.new)) }
        ensures cause { HasCauseOr (IsAbsent (told self.old) name.now) (faults self.old)
            (faults self.new) result };

    /// Moves a prefix of what is left into the buffer, and answers its length: 0 for a buffer that
    /// is not empty means that nothing is left.
    fn read(&mut self, buf: &mut [u8]) -> Result<usize, Failed>
        ensures same { told self.new ≡ told self.old }
        ensures bound { ReadsAtMost result buf.new }
        ensures gives { IfOk result (λ n. Gives (left self.old) (left self.new) n buf.new) }
        ensures cause { HasCause (faults self.old) (faults self.new) result };
}
