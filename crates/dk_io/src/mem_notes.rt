//! Notes in memory.
ghost use Rattle.std.specs.Prelude.{◌≡◌, ◌+◌, ◌≤◌, ◌↔◌, ◌⊎◌, [], ◌∷◌, ◌++◌, length, Some, IfOk, OnOk, OnErr, IsErr};
ghost use Rattle.std.specs.Io.KnownBytes.{Appends, Keeps};
ghost use Rattle.dk_io.specs.Causes.{HasCause};
ghost use Rattle.dk_io.specs.Memory.{no_calls, CanCount, IsListed, Counts};

use crate::calls::Calls;
use crate::failed::Failed;
use crate::notes::Notes;
use std::alloc::{AllocError, Global};
use std::marker::Model;

/// Notes in memory with room for so many bytes, newlines included, whose listed calls fail. Their
/// calls take no memory.
#[derive(Drop)]
pub struct MemNotes {
    text: Vec<u8>,
    room: usize,
    calls: Calls,
}

impl Model for MemNotes {
    ghost use Rattle.std.specs.Prelude.{◌+◌, ◌≤◌, vec_len, vec_capacity};
    ghost use Rattle.dk_io.specs.Memory.{Store};

    ghost Value = { Store };

    ghost view = { λ notes. record { kept = notes.text.items; room = notes.room; calls = notes.calls } };

    ghost invariant = { λ notes. vec_len notes.text + notes.room ≤ vec_capacity notes.text };
}

impl MemNotes {
    /// Notes with no line. `fail` lists the calls that are to fail, from 1.
    pub fn new(alloc: Global, room: usize, fail: Vec<u64>) -> Result<MemNotes, AllocError>
        ensures { IfOk result (λ notes. notes
            ≡ record { kept = []; room = room; calls = no_calls fail.items }) }
    {
        let text = Vec::with_capacity(alloc, room)?;
        Ok(MemNotes {
            text,
            room,
            calls: Calls::new(fail),
        })
    }

    /// The lines kept, each with a newline behind it.
    pub fn bytes(&self) -> &[u8]
        ensures { result.now ≡ self.now.kept }
    {
        &self.text
    }
}

impl Notes for MemNotes {
    ghost kept = { λ notes. Some notes.kept };

    ghost faults = { λ notes. notes.calls.faults };

    fn line(&mut self, text: &str) -> Result<(), Failed>
        ensures ok { OnOk result (Appends (Some self.old.kept) (Some self.new.kept) (text.now
            ++ 10 ∷ [])) }
        ensures err { OnErr result (Keeps (Some self.old.kept) (Some self.new.kept)) }
        ensures cause { HasCause self.old.calls.faults self.new.calls.faults result }

        ensures room { self.new.room + length self.new.kept ≡ self.old.room + length self.old.kept }

        // It fails, and the count rises, exactly at a listed call and where the line and its
        // newline don't fit.
        ensures fails { CanCount self.old.calls →
            (IsErr result ↔ (IsListed self.old.calls ⊎ (self.old.room ≤ length text.now))) }
        ensures counts { CanCount self.old.calls
            → Counts (IsErr result) self.old.calls self.new.calls }
    {
        let is_full = self.room <= text.len();
        if self.calls.fails(is_full) {
            return Err(Failed);
        }
        self.room -= text.len() + 1;
        let Ok(()) = self.text.extend_from_slice(text.as_bytes()) else {
            unreachable!()
        };
        let Ok(()) = self.text.push(b'\n') else {
            unreachable!()
        };
        Ok(())
    }
}
