//! Bytes, names and numbers, put behind what is written.
ghost use Rattle.std.specs.Prelude.{◌≡◌, ◌++◌, OnOk, decimal};
ghost use Rattle.tptp_text.specs.Printed.{printed_item_name, printed_name};

use dk_syntax::{Name, NoMemory};
use itoa::Buffer;
use std::alloc::Global;
use tptp_text::{item_name_text, name_text};

pub fn put(out: &mut Vec<u8>, text: &str) -> Result<(), NoMemory>
    ensures { OnOk result (out.new.items ≡ out.old.items ++ text.now) }
{
    out.extend_from_slice(text.as_bytes())?;
    Ok(())
}

pub fn put_number(out: &mut Vec<u8>, number: u64) -> Result<(), NoMemory>
    ensures { OnOk result (out.new.items ≡ out.old.items ++ decimal number) }
{
    let mut digits = Buffer::new();
    put(out, digits.format(number))
}

/// The name of a symbol.
pub fn put_name(alloc: Global, out: &mut Vec<u8>, name: &Name) -> Result<(), NoMemory>
    ensures { OnOk result (out.new.items ≡ out.old.items ++ printed_name name.now) }
{
    let text = name_text(alloc, name)?;
    out.extend_from_slice(&text)?;
    Ok(())
}

/// The name of an item or of a step.
pub fn put_item_name(alloc: Global, out: &mut Vec<u8>, name: &Name) -> Result<(), NoMemory>
    ensures { OnOk result (out.new.items ≡ out.old.items ++ printed_item_name name.now) }
{
    let text = item_name_text(alloc, name)?;
    out.extend_from_slice(&text)?;
    Ok(())
}
