//! Laws of the definitions. The functions' contracts have the laws; the bodies do nothing.
ghost use Rattle.expansion.specs.Laws.{ChoicesAreGround, EndsAreGround, EndsAreOne, EndsAreWellFormed, RowsAreThin};

/// For each row of an image's clause list and ground terms for its variables, the choices of the row's thin tree are
/// those of a thin tree, whose ends are the row's ground clause.
pub fn rows_are_thin()
    ensures { RowsAreThin }
{}

/// The choices of a thin tree lead to one list of literals. The terms chosen are ground, and so are the literals, which
/// are well-formed where the literals of the form and the chosen terms are.
pub fn ends_are_one()
    ensures one { EndsAreOne }
    ensures choices { ChoicesAreGround }
    ensures ground { EndsAreGround }
    ensures well_formed { EndsAreWellFormed }
{}
