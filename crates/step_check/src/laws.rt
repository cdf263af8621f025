//! Laws of the definitions. The functions' contracts have the laws; the bodies do nothing.
ghost use Rattle.std.specs.Prelude.{ℕ};
ghost use Rattle.step_check.specs.Laws.{RepresentativeIsOne, RepresentativeIsSorted, VerdictIsOne, VerdictsAreOne};
ghost use Rattle.step_check.specs.Truth.{ClausesKeepTruth, EmptyMapKeepsMeaning};

/// A step has one representative at most, which differs from its own normal form by order and grouping alone.
pub fn representatives_are_one()
    ensures one { RepresentativeIsOne }
    ensures sorted { RepresentativeIsSorted }
{}

/// A step has one verdict at most, and a trace one verdict list.
pub fn verdicts_are_one()
    ensures verdict { VerdictIsOne }
    ensures list { VerdictsAreOne }
{}

/// In every interpretation the formula of a structural step with an empty map is true exactly where its parent's is. Where
/// "all" means "each", a closed step that is right by its clauses is true wherever all its parents are. The formula of a leaf
/// that names the conjecture counts as negated.
pub fn verdicts_keep_truth()
    ensures clauses { ClausesKeepTruth ℕ }
    ensures structural { EmptyMapKeepsMeaning ℕ }
{}
