//! Laws of the theory of terms. Each function's contract is a law; the bodies do nothing.
ghost use Rattle.lp_term.specs.ConnectiveLaws.{ByContradiction, ConjunctionIntroduced, ConjunctionUsed, DisjunctionLeft, DisjunctionRight, DisjunctionUsed, EquivalenceIntroduced, EquivalenceUsed, ExistentialIntroduced, ExistentialUsed, FalsityUsed, ImplicationIntroduced, ImplicationUsed, NegationIntroduced, NegationUsed, TruthIntroduced, UniversalIntroduced, UniversalUsed};
ghost use Rattle.lp_term.specs.TheoryLaws.{ConversionSubstitutes, Instantiates, LiftIsTheory, RulesAreOfPrelude, ShiftIsTheory, SubstitutionIsTheory, TranslationIsClosed, TypedIsBelow, TypedIsDeclared, Weakens};

/// Conversion goes by the rules of the prelude's commands.
pub fn rules_are_of_prelude()
    ensures rules { RulesAreOfPrelude }
{}

/// Conversion and typing keep under substitution, and a typed term is closed but for its context.
pub fn typing_substitutes()
    ensures conversion { ConversionSubstitutes }
    ensures weakening { Weakens }
    ensures instantiation { Instantiates }
    ensures variables { TypedIsBelow }
    ensures symbols { TypedIsDeclared }
{}

/// The rules of the connectives.
pub fn connectives_have_rules()
    ensures falsity { FalsityUsed }
    ensures truth { TruthIntroduced }
    ensures negation_introduced { NegationIntroduced }
    ensures negation_used { NegationUsed }
    ensures implication_introduced { ImplicationIntroduced }
    ensures implication_used { ImplicationUsed }
    ensures conjunction_introduced { ConjunctionIntroduced }
    ensures conjunction_used { ConjunctionUsed }
    ensures disjunction_left { DisjunctionLeft }
    ensures disjunction_right { DisjunctionRight }
    ensures disjunction_used { DisjunctionUsed }
    ensures equivalence_introduced { EquivalenceIntroduced }
    ensures equivalence_used { EquivalenceUsed }
    ensures contradiction { ByContradiction }
{}

/// The rules of the quantifiers.
pub fn quantifiers_have_rules()
    ensures universal_introduced { UniversalIntroduced }
    ensures universal_used { UniversalUsed }
    ensures existential_introduced { ExistentialIntroduced }
    ensures existential_used { ExistentialUsed }
{}

/// What `subst` and `lift` answer is what the theory's substitution and shift give.
pub fn substitution_is_of_theory()
    ensures substitution { SubstitutionIsTheory }
    ensures lift { LiftIsTheory }
    ensures shift { ShiftIsTheory }
{}

/// The translation of a closed formula has no free variable.
pub fn translations_are_closed()
    ensures { TranslationIsClosed }
{}
