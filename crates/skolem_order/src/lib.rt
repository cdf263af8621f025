//! Origins of Skolem symbols, and the Skolem terms that a plan needs, in their order.
//!
//! A Skolem symbol stands for an existential of a signed leaf. The signed leaf is a plain tree in
//! `specs/SignedForms`, with its vacuous quantifiers, so that variables are the leaf's own, and
//! with its formula at each existential; `specs/Spots` tells where an existential stands, by its
//! preorder number. The origin formula of a ground Skolem term (`specs/Origins`) is the
//! existential's formula with a ground term for each variable of the quantifiers around it: an
//! argument for a universal, and for an existential that stands around its own Skolem term.
//!
//! The needed terms are a least set (`specs/Order`). Their order is by depth, then by rank, then by
//! the order of terms.
//!
//! The walk to an existential goes down the formula by recursion, each equivalence four times, as
//! the normal form has its sides twice; at each quantifier met the body is searched for its
//! variable. `needed` keeps its terms in a table, each subterm once. It goes through the table from
//! the first term on, and for each Skolem term it walks to the origin and puts in the Skolem terms
//! of the existentials around it that are free there. Tables have fewer than 2 ^ 32 terms, so that
//! this ends. Then the Skolem terms of the table are sorted. `eigen` looks through the order.
//!
//! A row's thin tree goes through the signed leaf too (`specs/Meetings`), and meets at each
//! existential the origin of the term that is chosen there.
//!
//! Laws for the crates above stand in `proofs/SignedLaws` (the signed form of each kind of formula),
//! `proofs/DropLaws` (a signed form without its vacuous quantifiers is the normal form),
//! `proofs/MeetingLaws` (thin trees meet origins), `proofs/LabelLaws` (what is free in a signed form),
//! `proofs/SpotLaws` (one place to a number), `proofs/OriginLaws` (what a map says of the
//! existentials that it replaces), `proofs/ProperLaws` (nothing is left out of an origin formula),
//! `proofs/LongerMaps` (a map that grows changes none), `proofs/OrderLaws` (what is mentioned comes
//! before), `proofs/PlaceLaws` (and has an earlier place), `proofs/FunctionTerms` (the symbols of
//! needed terms are functions), `proofs/WalkSteps` (the walk to an existential) and `proofs/TermOrders` (the order of terms is total, and ties no
//! two terms of functions).
#![tactic(auto)]

mod closing;
mod eigenvariables;
mod entering;
mod laws;
mod occurrence;
mod origin_formula;
mod origins;
mod planned;
mod putting;
mod ranking;
mod roots;
mod sites;
mod values;
mod walk;

pub use eigenvariables::eigen;
pub use laws::{
    entries_are_covered, longer_maps_change_nothing, mentions_precede, mentions_stand_earlier,
    needed_list_is_one, origin_formulas_are_closed, origin_formulas_have_no_any, spots_are_found,
    trees_meet_origins,
};
pub use origin_formula::origin_of;
pub use origins::{Origin, Origins, Signed, origin_for};
pub use planned::needed;
pub use values::{Source, terms_around};
pub use walk::{Around, Hit, Walk, find};
