//! Laws on problems.
ghost use Rattle.extract.specs.Laws.{ParentsAreNamed};

/// The parents that stand as axioms are the steps that a step names.
pub fn parents_are_named()
    ensures { ParentsAreNamed }
{}
