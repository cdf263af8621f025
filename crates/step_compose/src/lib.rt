//! Composed images: the map that replaces all existentials of a form by new symbols, so that clauses follow from the
//! image.
//!
//! `compose_image` answers the least such map, by the places of its symbols, with the clause list of its image and the
//! justifications, or none exactly where there is none. It gives each existential in order each symbol in order that fits.
//! Where the form is closed, a branch ends as soon as a target has no justification from the relaxed image, in which the
//! existentials without a symbol are universals: each clause of an image under more symbols is an instance of one of the
//! relaxed image's. Each branch takes an image, its clause list and a justification of each target. In the worst case there
//! are as many branches as orders of the symbols; the search goes down by one recursion an existential.
//!
//! Laws for the crates above stand in `proofs/FullImages` (the full map leads to the full image), `proofs/ImageCounts`
//! (the counts of a full image's clause list don't depend on its symbols), `proofs/OneComposed` (one answer) and
//! `proofs/NumberedLists` (the rows of a clause list are numbered).
#![tactic(auto)]

mod arguments;
mod choices;
mod composed;
mod counts;
mod laws;
mod pruning;
mod relaxed;
mod search;
mod targets;

pub use composed::Composed;
pub use counts::{FullCounts, full_counts, is_listed};
pub use laws::{composed_images_are_one, full_maps_are_maps};
pub use search::compose_image;
