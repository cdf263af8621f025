//! Names, symbols, terms, formulas, literals, clauses and problems: the trees that every stage speaks of.
//!
//! Contracts see a `Seq` as the list of its items, a `Boxed` as its value and a `Name` as its bytes,
//! so that two trees are equal for a contract exactly where they are equal as trees, wherever they
//! lie in memory.
//!
//! A copy, a comparison, a depth, an order and a list of symbols take time linear in the trees: symbols
//! that were met are looked up by hashes. They go down a tree by recursion, the drop of a term along its
//! last arguments by a loop. Only the calls that answer want of memory take memory.
//!
//! A `TermTable` keeps ground terms with each subterm once, under numbers: a term is put in by its head
//! and the numbers of its arguments, in time linear in these, and `term` writes the tree out.
//!
//! Laws for the crates above stand in `proofs/TermLaws` and `proofs/FormulaLaws` (induction, and what
//! the definitions say of each kind of tree), `proofs/WellFormedLaws` (what it is to be closed,
//! well-formed and without `Any`), `proofs/SubstitutionLaws` and `proofs/BelowLaws` (substitution, the
//! variables of terms, and that those closed under a number are those below it), `proofs/SymbolLaws` and
//! `proofs/FirstOccurrences` (symbols and lists of them) and `proofs/ListLaws` (lists); for those who put
//! terms in a table, in `proofs/TermTableLaws`.
#![tactic(auto)]

mod alpha;
mod boxed;
mod clause;
mod depths;
mod formula;
mod memory;
mod name;
mod order;
mod problem;
mod seq;
mod symbol;
mod symbols;
mod term;
mod term_table;

pub use alpha::{alpha_eq, same_literal, same_term, same_terms};
pub use boxed::Boxed;
pub use clause::{Clause, Literal, copy_literals};
pub use depths::{depth, term_depth};
pub use formula::Formula;
pub use memory::NoMemory;
pub use name::Name;
pub use order::term_order;
pub use problem::{Named, Problem};
pub use seq::{NoRoom, Seq};
pub use symbol::{Kind, SymKey};
pub use symbols::{add_formula, copy_symbols, symbols_of};
pub use term::{Term, copy_terms};
pub use term_table::TermTable;
