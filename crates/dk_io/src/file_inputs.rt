//! Files of the system.
ghost use Rattle.std.specs.Prelude.{◌≡◌, None, IfOk, IsErr, OnOk};
ghost use Rattle.std.specs.Io.{ReadsAtMost};
ghost use Rattle.dk_io.specs.Causes.{HasCause, HasCauseOr, RisesAt};
ghost use Rattle.dk_io.specs.Outside.{untold, IsAbsent, Starts, Gives};

use crate::failed::Failed;
use crate::inputs::Inputs;
use std::fs;
use std::io::Read;
use std::marker::Model;
use std::rt::Files;

/// Files of the system by their paths. Contracts see its count of faults, and no bytes.
#[derive(Drop)]
pub struct FileInputs<'a, R: Files> {
    rt: &'a R,
    file: Option<R::File>,
    faults: u64,
}

impl<'a, R: Files> Model for FileInputs<'a, R> {
    ghost use Rattle.std.specs.Prelude.{ℕ};

    ghost Value = { ℕ };

    ghost view = { λ inputs. inputs.faults };
}

impl<'a, R: Files> FileInputs<'a, R> {
    pub fn new(rt: &'a R) -> FileInputs<'a, R>
        ensures { result ≡ 0 }
    {
        FileInputs {
            rt,
            file: None,
            faults: 0,
        }
    }
}

impl<'a, R: Files> Inputs for FileInputs<'a, R> {
    ghost told = { λ _. untold };

    ghost left = { λ _. None };

    ghost faults = { λ count. count };

    fn start(&mut self, name: &str) -> Result<(), Failed>
        ensures same { untold ≡ untold }
        ensures starts { OnOk result (Starts untold name.now None) }
        ensures cause { HasCauseOr (IsAbsent untold name.now) self.old self.new result }
        ensures counts { RisesAt (IsErr result) self.old self.new }
    {
        match fs::open(self.rt, name) {
            Ok(file) => {
                self.file = Some(file);
                Ok(())
            }
            Err(_) => {
                self.faults = self.faults.saturating_add(1);
                Err(Failed)
            }
        }
    }

    fn read(&mut self, buf: &mut [u8]) -> Result<usize, Failed>
        ensures same { untold ≡ untold }
        ensures bound { ReadsAtMost result buf.new }
        ensures gives { IfOk result (λ n. Gives None None n buf.new) }
        ensures cause { HasCause self.old self.new result }
        ensures counts { RisesAt (IsErr result) self.old self.new }
    {
        let Some(file) = &mut self.file else {
            return Ok(0);
        };
        match file.read(buf) {
            Ok(count) => Ok(count),
            Err(_) => {
                self.faults = self.faults.saturating_add(1);
                Err(Failed)
            }
        }
    }
}
