//! What is bound around a place, and what an identifier means there.
ghost use Rattle.std.specs.Prelude.{◌≡◌, ◌∷◌, [], None, Some, reverse, IfOk, OnOk};
ghost use Rattle.lp_read.specs.Scopes.{binder_of, is_bound, tail_of};
ghost use Rattle.dedukti_read.specs.Scopes.{is_listed, meaning};

use crate::read::Read;
use dk_syntax::NoMemory;
use lp_term::Ident;
use std::alloc::Global;
use std::marker::Model;

/// Whether a binder is of that name.
fn is_bound(binder: &Option<Ident>, name: &[u8]) -> bool
    ensures { result ≡ is_bound binder.now name.now }
{
    match binder {
        Some(bound) => bound.as_bytes() == name,
        None => false,
    }
}

/// How many binders stand behind the last one of that name.
#[tactic(auto, using(crate::proofs::ScopeSteps::scope_steps))]
fn nearest(names: &[Option<Ident>], name: &[u8]) -> Option<usize>
    ensures { result ≡ binder_of (reverse names.now) name.now }
{
    let mut left = names.len();
    let mut between = 0;
    while left > 0 {
        left -= 1;
        if is_bound(&names[left], name) {
            return Some(between);
        }
        between += 1;
    }
    None
}

/// Whether the name is one of them.
fn is_listed(names: &[Ident], name: &[u8]) -> bool
    ensures { result ≡ is_listed names.now name.now }
{
    for other in names {
        if name == other.as_bytes() {
            return true;
        }
    }
    false
}

/// The names of the binders around a place, which contracts see as their list, the nearest one first.
#[derive(Drop)]
pub(crate) struct Scope {
    names: Vec<Option<Ident>>,
}

impl Model for Scope {
    ghost use Rattle.std.specs.Prelude.{List, ℕ, Option, reverse};

    ghost Value = { List (Option (List ℕ)) };

    ghost view = { λ scope. reverse scope.names.items };
}

impl Scope {
    pub(crate) fn new(alloc: Global) -> Scope
        ensures { result ≡ [] }
    {
        Scope {
            names: Vec::new(alloc),
        }
    }

    /// One binder further in.
    pub(crate) fn enter(&mut self, name: Option<Ident>) -> Result<(), NoMemory>
        ensures { OnOk result (self.new ≡ name ∷ self.old) }
    {
        self.names.push(name)?;
        Ok(())
    }

    /// One binder further out.
    pub(crate) fn leave(&mut self)
        ensures { self.new ≡ tail_of self.old }
    {
        let _ = self.names.pop();
    }

    /// What an identifier means there, in a rule with these pattern variables.
    pub(crate) fn meaning(&self, patterns: &[Ident], name: Ident) -> Result<Read, NoMemory>
        ensures { IfOk result (λ read. read ≡ meaning patterns.now self.now name) }
    {
        match nearest(self.names.as_slice(), name.as_bytes()) {
            None => {
                if is_listed(patterns, name.as_bytes()) {
                    Ok(Read::pattern(name))
                } else {
                    Ok(Read::symbol(name))
                }
            }
            Some(between) => match u32::try_from(between) {
                Ok(number) => Ok(Read::variable(number)),
                Err(_) => Err(NoMemory),
            },
        }
    }
}
