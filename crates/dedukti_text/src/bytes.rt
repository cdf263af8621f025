//! Bytes, variables and annotations.
ghost use Rattle.std.specs.Prelude.{◌≡◌, ◌++◌, codes, OnOk};
ghost use Rattle.lp_text.specs.Print.{variable_text};

use dk_syntax::NoMemory;
use itoa::Buffer;

pub(crate) fn put(out: &mut Vec<u8>, bytes: &[u8]) -> Result<(), NoMemory>
    ensures { OnOk result (out.new.items ≡ out.old.items ++ bytes.now) }
{
    out.extend_from_slice(bytes)?;
    Ok(())
}

/// The variable whose binder has that level.
pub(crate) fn put_variable(out: &mut Vec<u8>, level: u32) -> Result<(), NoMemory>
    ensures { OnOk result (out.new.items ≡ out.old.items ++ variable_text level) }
{
    let mut buffer = Buffer::new();
    put(out, b"v")?;
    put(out, buffer.format(level).as_bytes())
}

/// `v : `, with the variable of that level.
pub(crate) fn put_binder(out: &mut Vec<u8>, level: u32) -> Result<(), NoMemory>
    ensures { OnOk result (out.new.items ≡ out.old.items ++ (variable_text level ++ codes " : ")) }
{
    put_variable(out, level)?;
    put(out, b" : ")
}
