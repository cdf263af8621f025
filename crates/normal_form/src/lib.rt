//! Signed normal forms of formulas, their sorted forms, and the clause lists of forms without existentials.
//!
//! A normal form has its negations at its atoms, no implication or equivalence, and no quantifier whose
//! variable doesn't occur. A clause list has the form's clauses in order, each with the universals of its
//! variables and the sides taken at the conjunctions. Both are given by cases in `specs/`, and both mean
//! what they come from: in every interpretation the form is true exactly where the formula with the sign is,
//! and where its "all" means "each", each clause is true wherever the form is, and a closed form without
//! existentials is wherever its clauses are.
//!
//! A sorted form is one for all forms that differ by order and grouping of `And` and `Or` alone, and for no others.
//! Each quantifier takes its preorder number along. The members of a largest chain are collected before they are
//! sorted, so that a form is sorted in about the time of one sort of its parts, and compared without being copied.
//!
//! Sizes are counted before anything is built, in time linear in the formula or form: one walk finds the
//! variables that occur together with the nodes. Building a form takes time linear in the formula whose
//! equivalences have doubled their sides: one walk marks the quantifiers whose variables don't occur, and the
//! next leaves them out and numbers the variables as it meets them. A clause list takes time linear in the form
//! and the list: what lists nothing is left out before any clause is made, a clause is copied only where two
//! come of it, and universals are looked up by hashes. All goes down the trees by recursion, but sorting, comparing,
//! copying and dropping go along the left parts by loops, since a sorted chain is nested to the left as deep as
//! it has members.
//!
//! Laws for the crates above stand in `proofs/FormInduction` (induction over normal forms), `proofs/FormEquations`
//! (what the definitions say of each kind of form), `proofs/FormLaws` (a form and its tree), `proofs/Shuffles` (numbered
//! forms that differ by order and grouping), `proofs/Regroups` (their sorted forms are one), `proofs/Sorts` and
//! `proofs/StableSorts` (sorting, ties kept in place), `proofs/Orders` (sorting tells just these), `proofs/NormalFacts`
//! (what normal forms keep of formulas), `proofs/RowLaws` (what rows say of the form), `proofs/ListTotals` (how many clauses and
//! literals a list has), `proofs/TruthLaws` and `proofs/BoolLaws` (what forms mean), `proofs/SoundLists` and
//! `proofs/SufficientLists` (what clause lists mean), `proofs/Counting` and `proofs/FormulaEquations` (what occurs in
//! formulas).
#![tactic(auto)]

mod chain;
mod clause_list;
mod count;
mod draft;
mod form;
mod form_order;
mod laws;
mod layer;
mod literal_order;
mod marks;
mod matrix;
mod numbering;
mod raw;
mod rename;
mod signed_form;
mod sorting;
mod totals;
mod work;

pub use clause_list::{
    ClauseFault, ClauseList, ClauseRow, clauses, clauses_follow, clauses_suffice,
};
pub use form::{Nf, has_exists, nf_eq};
pub use laws::{forms_are_trees, normal_forms_keep, rows_are_choices, sorting_is_exact};
pub use signed_form::{NfFault, keeps_truth, normal};
pub use sorting::{Sorted, sorted_of};
