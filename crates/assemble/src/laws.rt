//! Laws of the body. Each function's contract is a law; the bodies do nothing.
ghost use Rattle.assemble.specs.FirstRow.{RowIsBody, RowIsRight};
ghost use Rattle.assemble.specs.Fitting.{TreesFit};
ghost use Rattle.assemble.specs.Laws.{BodyClosed, BodyDeclared, BodyTyped, LetsByLevels};
ghost use Rattle.assemble.specs.ProblemLaws.{FormulasAreOver, GoalIsClosed, GoalIsSorted, GoalTypeIsTheory, SignatureIsTheory};

/// The prelude and the constants of symbols declare the signature of these symbols.
pub fn signature_is_of_theory()
    ensures { SignatureIsTheory }
{}

/// The declared type of `goal` is the theory's where the formulas are closed. Where they are well-formed too
/// and the problem has its symbols, the formulas are over them, and that type is a type and closed.
pub fn goal_is_of_theory()
    ensures goal { GoalTypeIsTheory }
    ensures formulas { FormulasAreOver }
    ensures sorted { GoalIsSorted }
    ensures closed { GoalIsClosed }
{}

/// The body of `goal` has its type, no variable is free in it, and its symbols are declared.
pub fn body_is_typed()
    ensures typed { BodyTyped }
    ensures closed { BodyClosed }
    ensures symbols { BodyDeclared }
{}

/// The first worked row is of this form.
pub fn first_row_is_right()
    ensures body { RowIsBody }
    ensures right { RowIsRight }
{}

/// The lets by places are the lets by levels.
pub fn lets_are_by_levels()
    ensures { LetsByLevels }
{}

/// A thin tree that meets origins is one that proof terms can consume.
pub fn trees_fit()
    ensures { TreesFit }
{}
