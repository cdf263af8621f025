//! Names that are met one by one, and the numbers of items.
ghost use Rattle.std.specs.Prelude.{◌≡◌, ◌+◌, not, IfOk};
ghost use Rattle.tstp_trace.specs.Names.{bytes_of, is_among, with_name};

use dk_syntax::{Name, NoMemory};
use indexmap::IndexSet;
use std::alloc::Global;

/// The number of the next item.
pub fn next_number(last: u32) -> Result<u32, NoMemory>
    ensures { IfOk result (λ number. number ≡ last + 1) }
{
    last.checked_add(1).ok_or(NoMemory)
}

/// Adds the name, and answers whether it is new.
pub fn add_name(alloc: Global, names: &mut IndexSet<Vec<u8>>, name: &Name) -> Result<bool, NoMemory>
    ensures fresh { IfOk result (λ fresh. fresh
        ≡ not (is_among (bytes_of names.old.keys) name.now)) }
    ensures names { IfOk result (λ fresh. bytes_of names.new.keys
        ≡ with_name (bytes_of names.old.keys) name.now) }
{
    let bytes = Vec::from_slice(alloc, name.as_bytes())?;
    let fresh = names.insert(bytes)?;
    Ok(fresh)
}
