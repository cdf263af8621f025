//! Identifiers.
ghost use Rattle.std.specs.Prelude.{◌≡◌, IfOk};

use dk_syntax::NoMemory;
use std::alloc::Global;
use std::marker::Model;

/// An identifier, which contracts see as the list of its bytes.
#[derive(Debug, Drop)]
pub struct Ident {
    bytes: Vec<u8>,
}

impl Model for Ident {
    ghost use Rattle.std.specs.Prelude.{ℕ, List};

    ghost Value = { List ℕ };

    ghost view = { λ ident. ident.bytes.items };
}

impl Ident {
    pub fn new(bytes: Vec<u8>) -> Ident
        ensures { result ≡ bytes.items }
    {
        Ident { bytes }
    }

    pub fn as_bytes(&self) -> &[u8]
        ensures { result.now ≡ self.now }
    {
        self.bytes.as_slice()
    }

    pub fn copy(&self, alloc: Global) -> Result<Ident, NoMemory>
        ensures { IfOk result (λ ident. ident ≡ self.now) }
    {
        let bytes = Vec::from_slice(alloc, self.bytes.as_slice())?;
        Ok(Ident { bytes })
    }
}
