//! Laws of the judgement. Each function's contract is a law; the bodies do nothing.
ghost use Rattle.lp_kernel.specs.Laws.{AcceptanceIsDecided, AcceptedIsTyped, CheckedIsTyped, FoundIsTyped, NormalTypesAreUnique, TypedIsAccepted};

/// The judgement gives a term one normal type, and that type is the term's in the theory.
pub fn judgement_is_of_theory()
    ensures unique { NormalTypesAreUnique }
    ensures types { CheckedIsTyped }
    ensures terms { FoundIsTyped }
{}

/// A development is accepted exactly where it has no first failure. Then its goal has its type; and
/// where the goal has its type, nothing but a term outside the fragment can be refused in it.
pub fn acceptance_is_typing()
    ensures decided { AcceptanceIsDecided }
    ensures typed { AcceptedIsTyped }
    ensures accepted { TypedIsAccepted }
{}
