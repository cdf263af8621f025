//! Laws of the proof terms. Each function's contract is a law; the bodies do nothing.
ghost use Rattle.nd_term.specs.Laws.{ConsumerTyped, NegativeDrinkerTyped, PositiveDrinkerTyped, ResolutionTyped, SentenceTyped, SubsumptionTyped};
ghost use Rattle.nd_term.specs.ViewLaws.{FormulaIsOver, SentenceIsTheory, TranslationIsTheory};

/// Translations are the theory's: of every formula with its variables, and of every closed one.
pub fn translations_are_of_theory()
    ensures formulas { TranslationIsTheory }
    ensures closed { SentenceIsTheory }
{}

/// A well-formed formula is over each signature that declares its symbols.
pub fn formulas_are_over_their_symbols()
    ensures { FormulaIsOver }
{}

/// Translations are propositions.
pub fn translations_are_typed()
    ensures { SentenceTyped }
{}

/// The drinker terms have their types.
pub fn drinkers_are_typed()
    ensures positive { PositiveDrinkerTyped }
    ensures negative { NegativeDrinkerTyped }
{}

/// Consumers prove falsity.
pub fn consumers_are_typed()
    ensures { ConsumerTyped }
{}

/// The terms of subsumption and resolution prove falsity.
pub fn instances_are_typed()
    ensures subsumption { SubsumptionTyped }
    ensures resolution { ResolutionTyped }
{}
