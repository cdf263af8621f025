//! Laws of the development. The function's contract has the law; its body does nothing.
ghost use Rattle.development.specs.Laws.{PlansAreBuildable};

/// A plan for a problem with closed formulas, whose instances are right, can be built.
pub fn plans_are_buildable()
    ensures { PlansAreBuildable }
{}
