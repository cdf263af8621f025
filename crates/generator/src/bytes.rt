//! Bytes and numbers, put behind what is written.
ghost use Rattle.std.specs.Prelude.{◌≡◌, ◌++◌, OnOk, decimal};

use dk_syntax::NoMemory;
use itoa::Buffer;

pub(crate) fn put(out: &mut Vec<u8>, text: &[u8]) -> Result<(), NoMemory>
    ensures { OnOk result (out.new.items ≡ out.old.items ++ text.now) }
{
    out.extend_from_slice(text)?;
    Ok(())
}

/// A text and a number behind it.
pub(crate) fn put_with(out: &mut Vec<u8>, text: &[u8], number: u32) -> Result<(), NoMemory>
    ensures { OnOk result (out.new.items ≡ out.old.items ++ (text.now ++ decimal number)) }
{
    let mut digits = Buffer::new();
    put(out, text)?;
    put(out, digits.format(number).as_bytes())
}
