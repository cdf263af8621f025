//! Signatures, whose symbols are looked up by a hash.
ghost use Rattle.std.specs.Prelude.{◌≡◌, ◌++◌, ◌∷◌, [], false, OnOk};
ghost use Rattle.std.specs.Option.{option_copied, option_map};
ghost use Rattle.lp_term.specs.Signature.{declaration};
ghost use Rattle.lp_term.specs.View.{term_of};
ghost use Rattle.lp_kernel.specs.Checking.{declared, is_declared};
ghost use Rattle.lp_kernel.specs.Signatures.{sig_of};

use dk_syntax::NoMemory;
use indexmap::IndexMap;
use lp_term::{Ident, Lp};
use std::alloc::Global;

/// Symbols with their types, none of them twice.
#[derive(Drop)]
pub struct Signature {
    pub entries: IndexMap<Vec<u8>, Lp>,
}

impl Signature {
    /// A signature of no symbols.
    pub fn new(alloc: Global) -> Signature
        ensures { sig_of result ≡ [] }
    {
        Signature {
            entries: IndexMap::new(alloc),
        }
    }

    /// The type that is declared for the symbol, if it is declared.
    pub fn type_of(&self, name: &Ident) -> Option<&Lp>
        ensures { declared (sig_of self.now) name.now ≡ option_map term_of (option_copied result) }
    {
        self.entries.get(name.as_bytes())
    }

    /// Whether the symbol is declared.
    pub fn declares(&self, name: &Ident) -> bool
        ensures { result ≡ is_declared (sig_of self.now) name.now }
    {
        self.entries.contains_key(name.as_bytes())
    }

    /// Declares a new symbol after the others.
    pub fn declare(&mut self, alloc: Global, name: &Ident, of: &Lp) -> Result<(), NoMemory>
        requires { is_declared (sig_of self.old) name.now ≡ false }
        ensures { OnOk result (sig_of self.new
            ≡ sig_of self.old ++ (declaration name.now (term_of of.now) ∷ [])) }
    {
        let key = Vec::from_slice(alloc, name.as_bytes())?;
        let of = of.copy(alloc)?;
        self.entries.insert(key, of)?;
        Ok(())
    }
}
