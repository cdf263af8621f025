//! Skolem images of normal forms: the map that leads from one form to another, the form that a map leads to, maps one
//! after the other, and maps carried to a form that differs by order and grouping of `And` and `Or` alone. The relation of
//! images stands in `specs/Images`.
//!
//! An image is built in one walk down the form, with quantifiers by their levels, so that nothing is shifted; the
//! level of an argument is looked for among the quantifiers around. Two maps are joined in one walk over both. A map
//! is carried with one look through the lists of numbers for each of its numbers, and then sorted.
//!
//! `skolem_image` answers the map that leads from one form to another, the empty one where the two are equal, or
//! `None`. A map that it answers leads there whatever the first form is. That no map leads there where it answers
//! `None`, and that no other map does, holds of first forms without a vacuous quantifier.
//!
//! The map is found in one walk over both forms, side by side. The rows of existentials tell which are replaced, as
//! without vacuous quantifiers no replaced existential follows a kept one in a row. What replaces a variable is read
//! at its first place, and the body of the existential is searched for variables that are no arguments. Then the image
//! under the map that was found is built and compared with the second form. The body of each replaced existential is
//! so walked twice, two rows are compared at each existential that a walk meets, and the arguments are looked through
//! for each variable: linear time where few existentials stand around another and symbols have few arguments. The room
//! is that of the image. Where it is not the second form, it may be far larger than both forms: the term that was read
//! at the first place of a variable stands there at each place of the variable.
//!
//! Laws for the crates above stand in `proofs/OneMap` (one map, images without vacuous quantifiers, the empty map),
//! `proofs/Unchanged` (forms without existentials), `proofs/OneImage` (the image as a function of the map),
//! `proofs/Chains` (maps one after the other) and `proofs/Carried` (carried maps).
#![tactic(auto)]

mod carrying;
mod chaining;
mod fitting;
mod imaging;
mod laws;
mod map;
mod searching;
mod seeing;
mod walk;

pub use carrying::carry;
pub use chaining::chain;
pub use imaging::image_under;
pub use laws::{
    carried_maps_are_maps, chains_are_images, forms_stay_without_existentials, images_are_one,
};
pub use map::{SkEntry, SkMap};
pub use searching::skolem_image;
