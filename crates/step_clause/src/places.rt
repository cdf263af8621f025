//! Places of clauses in the lists of the parents.
ghost use Rattle.std.specs.Prelude.{◌≡◌, IfOk};

use dk_syntax::NoMemory;

/// The number of a parent, and that of a clause of its list.
#[derive(Clone, Copy)]
pub struct Place {
    pub parent: u32,
    pub number: u32,
}

/// The same number, where it fits.
pub fn number_of(n: usize) -> Result<u32, NoMemory>
    ensures { IfOk result (λ same. same ≡ n) }
{
    if n > 4294967295 {
        return Err(NoMemory);
    }
    Ok(n as u32)
}
