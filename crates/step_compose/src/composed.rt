//! Composed images.
use dk_syntax::Seq;
use normal_form::ClauseList;
use step_clause::Justification;
use step_skolem::SkMap;

/// A map that replaces all existentials of a form, the clause list of its image, and the justification of each target
/// from this list.
#[derive(Drop)]
pub struct Composed {
    pub map: SkMap,
    pub image: ClauseList,
    pub steps: Seq<Justification>,
}
