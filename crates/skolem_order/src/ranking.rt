//! The Skolem terms of a table in their order.
#![tactic(auto, using(crate::proofs::WalkSteps::rank_steps))]

ghost use Rattle.std.specs.Prelude.{◌≡◌, cond, filter, map, Some, None, IfOk, OnOk};
ghost use Rattle.std.specs.List.Sorted.{IsPermutation, IsSortedBy};
ghost use Rattle.skolem_order.specs.Order.{rank};
ghost use Rattle.skolem_order.specs.Origins.{is_skolem};
ghost use Rattle.skolem_order.specs.Ranks.{less_ranked, ranked, ranked_order, term_in};

use crate::origins::{Origin, origin_of_term};
use crate::sites::site_of;
use dk_syntax::{NoMemory, Seq, Term, TermTable, term_depth, term_order};
use std::alloc::Global;
use std::cmp::Ordering;

/// A Skolem term with what it is sorted by.
#[derive(Drop)]
pub struct Ranked {
    pub depth: u64,
    pub rank: u32,
    pub term: Term,
}

/// The Skolem terms of the table.
pub fn skolem_terms(
    alloc: Global,
    table: &TermTable,
    origins: &[Origin],
) -> Result<Vec<Ranked>, NoMemory>
    ensures { IfOk result (λ list. list.items
        ≡ map (ranked origins.now) (filter (is_skolem origins.now) table.now)) }
{
    let mut list = Vec::new(alloc);
    for number in 0..table.len() {
        let term = table.term(alloc, number)?;
        if let Some(rank) = rank_of(alloc, origins, &term)? {
            list.push(Ranked {
                depth: term_depth(&term),
                rank,
                term,
            })?;
        }
    }
    Ok(list)
}

/// The rank of a Skolem term.
fn rank_of(alloc: Global, origins: &[Origin], t: &Term) -> Result<Option<u32>, NoMemory>
    ensures { IfOk result (λ found. found
        ≡ cond (is_skolem origins.now t.now) (Some (rank origins.now t.now)) None) }
{
    match origin_of_term(origins, t) {
        Some(origin) => {
            let site = site_of(alloc, origin)?;
            Ok(Some(site.rank))
        }
        None => Ok(None),
    }
}

pub fn put_in_order(list: &mut Vec<Ranked>) -> Result<(), NoMemory>
    ensures same { OnOk result (IsPermutation list.old.items list.new.items) }
    ensures sorted { OnOk result (IsSortedBy less_ranked list.new.items) }
{
    list.sort_by(|a, b| ranked_order(a, b))?;
    Ok(())
}

/// By depth, then by rank, then by the order of terms.
fn ranked_order(a: &Ranked, b: &Ranked) -> Ordering
    ensures { result ≡ ranked_order a.now b.now }
{
    match a.depth.cmp(&b.depth) {
        Ordering::Equal => {}
        other => return other,
    }
    match a.rank.cmp(&b.rank) {
        Ordering::Equal => term_order(&a.term, &b.term),
        other => other,
    }
}

/// The terms alone.
pub fn terms_of(alloc: Global, list: Vec<Ranked>) -> Result<Seq<Term>, NoMemory>
    ensures { IfOk result (λ terms. terms ≡ map term_in list.items) }
{
    let mut terms = Seq::new(alloc);
    for one in list {
        let Ranked {
            depth: _,
            rank: _,
            term,
        } = one;
        terms.push(term)?;
    }
    Ok(terms)
}
