//! Terms.
ghost use Rattle.std.specs.Prelude.{◌≡◌, List, IfOk, IfErr, MatchResult};

use crate::memory::NoMemory;
use crate::seq::Seq;
use crate::symbol::SymKey;
use std::alloc::Global;

/// A term. A variable's number says whose it is: in a formula it is the number of quantifiers between
/// the variable and its own quantifier, in a clause the variable's place among the clause's variables.
#[derive(Debug)]
pub enum Term {
    Var(u32),
    App(SymKey, Seq<Term>),
    /// The element that every domain has.
    Any,
}

impl Term {
    #[cycle(copy_term)]
    pub fn copy(&self, alloc: Global) -> Result<Term, NoMemory>
        ensures { IfOk result (λ term. term ≡ self.now) }
    {
        match self {
            Term::Var(number) => Ok(Term::Var(*number)),
            Term::App(symbol, args) => {
                let symbol = symbol.copy(alloc)?;
                let args = copy_terms(alloc, args.as_slice())?;
                Ok(Term::App(symbol, args))
            }
            Term::Any => Ok(Term::Any),
        }
    }

    /// Takes an application apart. Another term comes back as it is. This is the one way to take a
    /// term apart by value elsewhere, as the drop is written by hand.
    pub fn into_app(self) -> Result<(SymKey, Seq<Term>), Term>
        ensures parts { MatchResult result (λ parts. self ≡ Term.App parts.0 parts.1)
            (λ other. other ≡ self) }
        ensures other { IfErr result (λ other. (symbol : SymKey) (args : List Term)
            → ¬ other ≡ Term.App symbol args) }
    {
        match self {
            Term::App(symbol, args) => Ok((symbol, args)),
            other => Err(other),
        }
    }
}

/// Copies each term of a list.
#[cycle(copy_term)]
pub fn copy_terms(alloc: Global, terms: &[Term]) -> Result<Seq<Term>, NoMemory>
    ensures { IfOk result (λ all. all ≡ terms.now) }
{
    let mut all = Seq::from_vec(Vec::with_capacity(alloc, terms.len())?);
    for term in terms {
        all.push(term.copy(alloc)?)?;
    }
    Ok(all)
}

// A loop along last arguments: a term may be nested deeper than the stack is.
impl Drop for Term {
    fn drop(mut self) {
        loop {
            match self {
                Term::Var(_) | Term::Any => return,
                Term::App(_, mut args) => match args.pop() {
                    None => return,
                    Some(last) => self = last,
                },
            }
        }
    }
}
