//! Files in memory.
ghost use Rattle.std.specs.Prelude.{◌≡◌, ◌+◌, ◌^◌, ◌<◌, ◌≤◌, ◌↔◌, ◌⊎◌, drop, length, min, map, None, Some, IfSome, IfNone, IfOk, OnOk, OnErr, IsErr};
ghost use Rattle.std.specs.Io.{ReadsAtMost};
ghost use Rattle.dk_io.specs.Causes.{HasCause, HasCauseOr};
ghost use Rattle.dk_io.specs.Outside.{IsAbsent, Starts, Gives};
ghost use Rattle.dk_io.specs.Memory.{no_calls, CanCount, IsListed, Counts, call_limit, file_named, file_of, bytes_at};

use crate::calls::Calls;
use crate::failed::Failed;
use crate::inputs::Inputs;
use std::marker::Model;

/// Files in memory, whose listed calls fail. Their calls take no memory.
#[derive(Drop)]
pub struct MemInputs {
    files: Vec<(String, Vec<u8>)>,
    /// The place of the file that was started: past the last before the first start.
    place: usize,
    /// How many of its bytes were read.
    at: usize,
    /// The greatest number of bytes that one call gives, from 1 on: 0 is read as 1.
    pub most: usize,
    calls: Calls,
}

impl Model for MemInputs {
    ghost use Rattle.std.specs.Prelude.{map, drop};
    ghost use Rattle.dk_io.specs.Memory.{Reading, file_of, bytes_at};

    ghost Value = { Reading };

    ghost view = { λ inputs. record {
      files = map file_of inputs.files.items;
      left = drop inputs.at (bytes_at inputs.files.items inputs.place);
      most = inputs.most;
      calls = inputs.calls;
    } };
}

impl MemInputs {
    ghost use Rattle.std.specs.Prelude.{◌≡◌, ◌-◌, ◌^◌, [], map};
    ghost use Rattle.dk_io.specs.Memory.{no_calls, file_of, HaveOwnNames, TellsOnly};

    /// These files, of which a call gives any number of bytes. `fail` lists the calls that are to
    /// fail, from 1.
    pub fn new(files: Vec<(String, Vec<u8>)>, fail: Vec<u64>) -> MemInputs
        ensures told { HaveOwnNames (map file_of files.items) →
            TellsOnly (⟦<MemInputs as Inputs>⟧.told result) (map file_of files.items) }
        ensures start { result ≡ record {
          files = map file_of files.items;
          left = [];
          most = 2 ^ 64 - 1;
          calls = no_calls fail.items;
        } }
    {
        let place = files.len();
        MemInputs {
            files,
            place,
            at: 0,
            most: usize::MAX,
            calls: Calls::new(fail),
        }
    }
}

impl Inputs for MemInputs {
    ghost told = { λ inputs. Some (file_named inputs.files) };

    ghost left = { λ inputs. Some inputs.left };

    ghost faults = { λ inputs. inputs.calls.faults };

    fn start(&mut self, name: &str) -> Result<(), Failed>
        ensures same { Some (file_named self.new.files) ≡ Some (file_named self.old.files) }
        ensures starts { OnOk result (Starts (Some (file_named self.old.files)) name.now
            (Some self.new.left)) }
        ensures cause { HasCauseOr (IsAbsent (Some (file_named self.old.files)) name.now)
            self.old.calls.faults self.new.calls.faults result }

        ensures files { self.new.files ≡ self.old.files }
        ensures most { self.new.most ≡ self.old.most }
        ensures left { OnErr result (self.new.left ≡ self.old.left) }

        // It fails exactly at a listed call and for an absent name, and the count rises exactly at
        // a listed call.
        ensures fails { CanCount self.old.calls →
            (IsErr result ↔ (IsListed self.old.calls ⊎ (file_named self.old.files name.now ≡ None))) }
        ensures counts { CanCount self.old.calls
            → Counts (IsListed self.old.calls) self.old.calls self.new.calls }
    {
        if self.calls.fails(false) {
            return Err(Failed);
        }
        let Some(place) = place_of(&self.files, name) else {
            return Err(Failed);
        };
        self.place = place;
        self.at = 0;
        Ok(())
    }

    fn read(&mut self, buf: &mut [u8]) -> Result<usize, Failed>
        ensures same { Some (file_named self.new.files) ≡ Some (file_named self.old.files) }
        ensures bound { ReadsAtMost result buf.new }
        ensures gives { IfOk result (λ n. Gives (Some self.old.left) (Some self.new.left) n buf.new) }
        ensures cause { HasCause self.old.calls.faults self.new.calls.faults result }

        ensures files { self.new.files ≡ self.old.files }
        ensures most { self.new.most ≡ self.old.most }
        ensures left { OnErr result (self.new.left ≡ self.old.left) }
        ensures moves { IfOk result (λ n.
            n ≡ min (min (length self.old.left) (length buf.old)) (call_limit self.old.most)) }

        // It fails, and the count rises, exactly at a listed call.
        ensures fails { CanCount self.old.calls → (IsErr result ↔ IsListed self.old.calls) }
        ensures counts { CanCount self.old.calls
            → Counts (IsErr result) self.old.calls self.new.calls }
    {
        if self.calls.fails(false) {
            return Err(Failed);
        }
        let most = self.most.max(1);
        let count = give(bytes_of(&self.files, self.place), self.at, buf, most);
        self.at += count;
        Ok(count)
    }
}

/// The place of the first file of this name.
fn place_of(files: &[(String, Vec<u8>)], name: &str) -> Option<usize>
    ensures found { IfSome result (λ place. file_named (map file_of files.now) name.now
        ≡ Some (bytes_at files.now place)) }
    ensures none { IfNone result (file_named (map file_of files.now) name.now ≡ None) }
{
    for (place, file) in files.iter().enumerate() {
        if file.0.as_str() == name {
            return Some(place);
        }
    }
    None
}

/// The bytes of the file at this place, none past the last.
fn bytes_of(files: &[(String, Vec<u8>)], place: usize) -> &[u8]
    ensures { result.now ≡ bytes_at files.now place }
{
    if place < files.len() {
        &files[place].1
    } else {
        &[]
    }
}

/// Moves bytes behind this offset into the buffer, as many as there are and as fit, `most` at most,
/// and answers how many.
fn give(file: &[u8], at: usize, buf: &mut [u8], most: usize) -> usize
    requires { 0 < most }
    ensures moves { result ≡ min (min (length (drop at file.now)) (length buf.old)) most }
    ensures fits { at + result < 2 ^ 64 }
    ensures gives { Gives (Some (drop at file.now)) (Some (drop (at + result) file.now)) result
        buf.new }
{
    if at >= file.len() {
        return 0;
    }
    let (_, rest) = file.split_at(at);
    let count = rest.len().min(buf.len()).min(most);
    buf[..count].copy_from_slice(&rest[..count]);
    count
}
