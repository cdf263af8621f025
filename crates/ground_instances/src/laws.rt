//! Laws of the definitions. The contracts have the laws; the bodies do nothing.
ghost use Rattle.ground_instances.specs.Laws.{AllFollow, FollowsFromNeeded, NeededAreOne, NeedsAreOne};

/// What an instance needs is one list, and so are the instances that a root needs.
pub fn needed_are_one()
    ensures needs { NeedsAreOne }
    ensures needed { NeededAreOne }
{}

/// In a verdict list without a bad step, the ground clause of an instance follows from the ground clauses of those that it
/// needs, if it needs any: whatever truth values ground atoms have, it is true if all of those are. So all ground clauses of a
/// list of instances that each come after those that they need follow from the clauses of the instances that need none.
pub fn follows_from_needed()
    ensures one { FollowsFromNeeded }
    ensures list { AllFollow }
{}
