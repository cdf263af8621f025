//! A sink in memory.
ghost use Rattle.std.specs.Prelude.{◌≡◌, ◌+◌, ◌-◌, ◌^◌, ◌↔◌, ◌⊎◌, [], length, min, Some, IfOk, IsErr};
ghost use Rattle.std.specs.Io.{WritesAtMost};
ghost use Rattle.std.specs.Io.KnownBytes.{WriteAppends};
ghost use Rattle.dk_io.specs.Causes.{WriteHasCause};
ghost use Rattle.dk_io.specs.Memory.{no_calls, CanCount, IsListed, Counts, FaultsAt, IsFull, TakesNone, call_limit};

use crate::calls::Calls;
use crate::failed::Failed;
use crate::sink::Sink;
use std::alloc::{AllocError, Global};
use std::marker::Model;

/// A sink in memory with room for so many bytes, whose listed calls fail. Its calls take no memory.
#[derive(Drop)]
pub struct MemSink {
    kept: Vec<u8>,
    room: usize,
    /// The greatest number of bytes that one call takes, from 1 on: 0 is read as 1.
    pub most: usize,
    /// The numbers of the calls, from 1, that answer `Ok(0)`, and raise the count for bytes that are
    /// not empty. A call that fails answers `Failed` nevertheless.
    pub zero: Vec<u64>,
    calls: Calls,
}

impl Model for MemSink {
    ghost use Rattle.std.specs.Prelude.{◌+◌, ◌≤◌, vec_len, vec_capacity};
    ghost use Rattle.dk_io.specs.Memory.{Taking};

    ghost Value = { Taking };

    ghost view = { λ sink. record {
      kept = sink.kept.items;
      room = sink.room;
      most = sink.most;
      zero = sink.zero.items;
      calls = sink.calls;
    } };

    ghost invariant = { λ sink. vec_len sink.kept + sink.room ≤ vec_capacity sink.kept };
}

impl MemSink {
    /// An empty sink, of which a call takes any number of bytes. `fail` lists the calls that are to
    /// fail, from 1.
    pub fn new(alloc: Global, room: usize, fail: Vec<u64>) -> Result<MemSink, AllocError>
        ensures { IfOk result (λ sink. sink ≡ record {
          kept = [];
          room = room;
          most = 2 ^ 64 - 1;
          zero = [];
          calls = no_calls fail.items;
        }) }
    {
        let kept = Vec::with_capacity(alloc, room)?;
        Ok(MemSink {
            kept,
            room,
            most: usize::MAX,
            zero: Vec::new(alloc),
            calls: Calls::new(fail),
        })
    }

    /// The bytes taken.
    pub fn bytes(&self) -> &[u8]
        ensures { result.now ≡ self.now.kept }
    {
        &self.kept
    }
}

impl Sink for MemSink {
    ghost kept = { λ sink. Some sink.kept };

    ghost faults = { λ sink. sink.calls.faults };

    fn write(&mut self, bytes: &[u8]) -> Result<usize, Failed>
        ensures bound { WritesAtMost result bytes.now }
        ensures appends { WriteAppends (Some self.old.kept) (Some self.new.kept) result bytes.now }
        ensures cause { WriteHasCause self.old.calls.faults self.new.calls.faults bytes.now result }

        // With less room than bytes it takes those that fit, as many as one call takes.
        ensures takes { CanCount self.old.calls → ¬ TakesNone self.old → IfOk result (λ n.
            n ≡ min (min (length bytes.now) self.old.room) (call_limit self.old.most)) }
        ensures none { CanCount self.old.calls → TakesNone self.old → IfOk result (λ n. n ≡ 0) }
        ensures room { self.new.room + length self.new.kept ≡ self.old.room + length self.old.kept }
        ensures limit { (self.new.most ≡ self.old.most) × (self.new.zero ≡ self.old.zero) }

        // It fails exactly at a listed call and where no byte fits, and the count rises there and
        // where it takes none of some bytes.
        ensures fails { CanCount self.old.calls →
            (IsErr result ↔ (IsListed self.old.calls ⊎ IsFull self.old bytes.now)) }
        ensures counts { CanCount self.old.calls →
            Counts (FaultsAt self.old bytes.now) self.old.calls self.new.calls }
    {
        let is_full = self.room == 0 && !bytes.is_empty();
        let fails = is_full || self.calls.is_listed();
        let takes_none = self.calls.is_next(&self.zero);
        self.calls.count(fails || (takes_none && !bytes.is_empty()));
        if fails {
            return Err(Failed);
        }
        if takes_none {
            return Ok(0);
        }
        let count = bytes.len().min(self.room).min(self.most.max(1));
        self.room -= count;
        let Ok(()) = self.kept.extend_from_slice(&bytes[..count]) else {
            unreachable!()
        };
        Ok(count)
    }
}
