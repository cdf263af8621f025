//! Standard error.
ghost use Rattle.std.specs.Prelude.{◌≡◌, [], ◌∷◌, ◌++◌, None, OnOk, OnErr, IsErr};
ghost use Rattle.std.specs.Io.KnownBytes.{Appends, Keeps};
ghost use Rattle.dk_io.specs.Causes.{HasCause, RisesAt};

use crate::failed::Failed;
use crate::notes::Notes;
use std::marker::Model;

/// Standard error. Contracts see its count of faults, and no lines.
#[derive(Drop)]
pub struct ErrNotes<'a, R: Eprint> {
    rt: &'a R,
    faults: u64,
}

impl<'a, R: Eprint> Model for ErrNotes<'a, R> {
    ghost use Rattle.std.specs.Prelude.{ℕ};

    ghost Value = { ℕ };

    ghost view = { λ notes. notes.faults };
}

impl<'a, R: Eprint> ErrNotes<'a, R> {
    pub fn new(rt: &'a R) -> ErrNotes<'a, R>
        ensures { result ≡ 0 }
    {
        ErrNotes { rt, faults: 0 }
    }
}

impl<'a, R: Eprint> Notes for ErrNotes<'a, R> {
    ghost kept = { λ _. None };

    ghost faults = { λ count. count };

    fn line(&mut self, text: &str) -> Result<(), Failed>
        ensures ok { OnOk result (Appends None None (text.now ++ 10 ∷ [])) }
        ensures err { OnErr result (Keeps None None) }
        ensures cause { HasCause self.old self.new result }
        ensures counts { RisesAt (IsErr result) self.old self.new }
    {
        match self.rt.eprintln(text) {
            Ok(()) => Ok(()),
            Err(_) => {
                self.faults = self.faults.saturating_add(1);
                Err(Failed)
            }
        }
    }
}
