//! Laws of plans. Each function's contract is a law; the bodies do nothing.
ghost use Rattle.plan_typing.specs.Laws.{EigenvariablesAreInTurn, InstancesAreRight, PlanBodyIsClosed, PlanBodyIsTyped};

/// The origin formula of each needed Skolem term mentions only eigenvariables before its own.
pub fn eigenvariables_are_in_turn()
    ensures { EigenvariablesAreInTurn }
{}

/// Each instance of a plan has its reason from those before it, and the last one's clause is empty.
pub fn instances_are_right()
    ensures { InstancesAreRight }
{}

/// The body of `goal` has the type of the problem, no variable is free in it, and its symbols are declared.
pub fn plan_body_is_typed()
    ensures typed { PlanBodyIsTyped }
    ensures closed { PlanBodyIsClosed }
{}
