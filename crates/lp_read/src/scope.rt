//! What is bound around a place.
ghost use Rattle.std.specs.Prelude.{◌≡◌, ◌∷◌, [], None, Some, reverse, IfOk, OnOk};
ghost use Rattle.lp_read.specs.Scopes.{binder_of, is_bound, meaning, tail_of};

use crate::read::Read;
use dk_syntax::NoMemory;
use lp_term::Ident;
use std::alloc::Global;
use std::marker::Model;

/// Whether a binder is of that name.
fn is_bound(binder: &Option<Ident>, name: &[u8]) -> bool
    ensures { result ≡ is_bound binder.now name.now }
{
    match binder {
        Some(bound) => bound.as_bytes() == name,
        None => false,
    }
}

/// How many binders stand behind the last one of that name.
#[tactic(auto, using(crate::proofs::ScopeSteps::scope_steps))]
fn nearest(names: &[Option<Ident>], name: &[u8]) -> Option<usize>
    ensures { result ≡ binder_of (reverse names.now) name.now }
{
    let mut left = names.len();
    let mut between = 0;
    while left > 0 {
        left -= 1;
        if is_bound(&names[left], name) {
            return Some(between);
        }
        between += 1;
    }
    None
}

/// The names of the binders around a place, which contracts see as their list, the nearest one first.
#[derive(Drop)]
pub(crate) struct Scope {
    names: Vec<Option<Ident>>,
}

impl Model for Scope {
    ghost use Rattle.std.specs.Prelude.{List, ℕ, Option, reverse};

    ghost Value = { List (Option (List ℕ)) };

    ghost view = { λ scope. reverse scope.names.items };
}

impl Scope {
    pub(crate) fn new(alloc: Global) -> Scope
        ensures { result ≡ [] }
    {
        Scope {
            names: Vec::new(alloc),
        }
    }

    /// One binder further in.
    pub(crate) fn enter(&mut self, name: Option<Ident>) -> Result<(), NoMemory>
        ensures { OnOk result (self.new ≡ name ∷ self.old) }
    {
        self.names.push(name)?;
        Ok(())
    }

    /// One binder further out.
    pub(crate) fn leave(&mut self)
        ensures { self.new ≡ tail_of self.old }
    {
        let _ = self.names.pop();
    }

    /// What an identifier means there.
    pub(crate) fn meaning(&self, name: Ident) -> Result<Read, NoMemory>
        ensures { IfOk result (λ read. read ≡ meaning self.now name) }
    {
        match nearest(self.names.as_slice(), name.as_bytes()) {
            None => Ok(Read::symbol(name)),
            Some(between) => match u32::try_from(between) {
                Ok(number) => Ok(Read::variable(number)),
                Err(_) => Err(NoMemory),
            },
        }
    }
}
