//! Standard output.
ghost use Rattle.std.specs.Prelude.{◌≡◌, None};
ghost use Rattle.std.specs.Io.{WritesAtMost};
ghost use Rattle.std.specs.Io.KnownBytes.{WriteAppends};
ghost use Rattle.dk_io.specs.Causes.{WriteHasCause, RisesAt, IsWriteFault};

use crate::failed::Failed;
use crate::sink::Sink;
use std::marker::Model;

/// Standard output. Contracts see its count of faults, and no bytes.
#[derive(Drop)]
pub struct OutSink<'a, R: Print> {
    rt: &'a R,
    faults: u64,
}

impl<'a, R: Print> Model for OutSink<'a, R> {
    ghost use Rattle.std.specs.Prelude.{ℕ};

    ghost Value = { ℕ };

    ghost view = { λ sink. sink.faults };
}

impl<'a, R: Print> OutSink<'a, R> {
    pub fn new(rt: &'a R) -> OutSink<'a, R>
        ensures { result ≡ 0 }
    {
        OutSink { rt, faults: 0 }
    }
}

impl<'a, R: Print> Sink for OutSink<'a, R> {
    ghost kept = { λ _. None };

    ghost faults = { λ count. count };

    fn write(&mut self, bytes: &[u8]) -> Result<usize, Failed>
        ensures bound { WritesAtMost result bytes.now }
        ensures appends { WriteAppends None None result bytes.now }
        ensures cause { WriteHasCause self.old self.new bytes.now result }
        ensures counts { RisesAt (IsWriteFault bytes.now result) self.old self.new }
    {
        match self.rt.write_some(bytes) {
            Ok(count) => {
                if count == 0 && !bytes.is_empty() {
                    self.faults = self.faults.saturating_add(1);
                }
                Ok(count)
            }
            Err(_) => {
                self.faults = self.faults.saturating_add(1);
                Err(Failed)
            }
        }
    }
}
