//! Laws of the definitions. The functions' contracts have the laws; the bodies do nothing.
ghost use Rattle.normal_form.specs.Laws.{ChoicesAreRows, ClosedStaysClosed, FormIsTree, NoneIsVacuous, RowsAreChoices, SortingIsDone, SortingIsExact, TreeIsForm, VacuousIsDropped, WellFormedStays};

/// A normal form and its tree are one thing.
pub fn forms_are_trees()
    ensures tree { FormIsTree }
    ensures form { TreeIsForm }
{}

/// Forms have one sorted form exactly where they differ by order and grouping of `And` and `Or` alone, and
/// sorting twice is sorting once.
pub fn sorting_is_exact()
    ensures exact { SortingIsExact }
    ensures done { SortingIsDone }
{}

/// A closed formula has closed normal forms, and a well-formed one well-formed literals in them. A quantifier is
/// dropped exactly where its variable isn't in the formula, so that no vacuous one is left.
pub fn normal_forms_keep()
    ensures closed { ClosedStaysClosed }
    ensures well_formed { WellFormedStays }
    ensures dropped { VacuousIsDropped }
    ensures tight { NoneIsVacuous }
{}

/// Each row of a form's clause list has the form's literals at the sides that it picks, where each variable belongs to
/// the universal whose preorder number stands in `quants` at the variable's place, and its clause has no other variable.
/// Each choice of sides has its row.
pub fn rows_are_choices()
    ensures rows { RowsAreChoices }
    ensures choices { ChoicesAreRows }
{}
