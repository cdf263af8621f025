//! Whole files and whole texts.
ghost use Rattle.std.specs.Prelude.{◌≡◌, ℕ, ◌<◌, ◌≤◌, ◌⊎◌, List, length, OnOk, OnErr, IfOk, IsErrOf};
ghost use Rattle.std.specs.Io.KnownBytes.{Appends};
ghost use Rattle.dk_io.specs.Causes.{Rose, HasCause};
ghost use Rattle.dk_io.specs.Outside.{IsAbsent, IsFile, Tells, Ends, AppendsFront};

use crate::failed::Failed;
use crate::inputs::Inputs;
use crate::sink::Sink;
use std::alloc::Global;
use thiserror::Error;

/// The most bytes that a file may have.
pub const MAX_BYTES: usize = 16_777_216;

/// The most bytes that are asked for at once.
const STEP: usize = 65_536;

/// Why a file was not read.
#[derive(Clone, Copy, Debug, PartialEq, Eq, Error)]
pub enum ReadAll {
    /// A call of the inputs failed.
    #[error("read fault")]
    Fault,
    /// The file has more than `MAX_BYTES` bytes.
    #[error("too long")]
    TooLong,
    /// There was no memory for its bytes.
    #[error("out of memory")]
    Memory,
}

/// All bytes of the file of this name.
pub fn read_all<I: Inputs>(alloc: Global, inputs: &mut I, name: &str) -> Result<Vec<u8>, ReadAll>
    ensures same { I.told inputs.new ≡ I.told inputs.old }
    ensures bytes { IfOk result (λ v. IsFile (I.told inputs.old) name.now v.items) }
    ensures short { IfOk result (λ v. length v.items ≤ 16777216) }
    ensures end { OnOk result (Ends (I.told inputs.old) (I.left inputs.new)) }

    // A fault comes exactly where the count rose or the name is absent.
    ensures later { I.faults inputs.old ≤ I.faults inputs.new }
    ensures fault_only { IsErrOf result ReadAll.Fault →
        Rose (I.faults inputs.old) (I.faults inputs.new) ⊎ IsAbsent (I.told inputs.old) name.now }
    ensures fault_rose { I.faults inputs.old < I.faults inputs.new → IsErrOf result ReadAll.Fault }
    ensures fault_absent { IsAbsent (I.told inputs.old) name.now → IsErrOf result ReadAll.Fault }

    ensures long { IsErrOf result ReadAll.TooLong →
        (bytes : List ℕ) → Tells (I.told inputs.old) name.now bytes → 16777216 < length bytes }
{
    let Ok(()) = inputs.start(name) else {
        return Err(ReadAll::Fault);
    };
    let mut all = Vec::new(alloc);
    let mut buf = [0u8; STEP];
    // One byte more than a file may have shows that it is too long.
    while all.len() <= MAX_BYTES {
        let wanted = STEP.min(MAX_BYTES + 1 - all.len());
        let Ok(given) = inputs.read(&mut buf[..wanted]) else {
            return Err(ReadAll::Fault);
        };
        if given == 0 {
            return Ok(all);
        }
        let Ok(()) = all.extend_from_slice(&buf[..given]) else {
            return Err(ReadAll::Memory);
        };
    }
    Err(ReadAll::TooLong)
}

/// Writes all of the bytes, or a prefix of them at an error.
pub fn write_all<K: Sink>(sink: &mut K, bytes: &[u8]) -> Result<(), Failed>
    ensures ok { OnOk result (Appends (K.kept sink.old) (K.kept sink.new) bytes.now) }
    ensures err { OnErr result (AppendsFront (K.kept sink.old) (K.kept sink.new) bytes.now) }

    // It fails exactly where the count rose.
    ensures cause { HasCause (K.faults sink.old) (K.faults sink.new) result }
{
    let mut at = 0;
    while at < bytes.len() {
        let count = sink.write(&bytes[at..])?;
        if count == 0 {
            return Err(Failed);
        }
        at += count;
    }
    Ok(())
}
