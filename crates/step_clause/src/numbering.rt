//! Whether all variables of clauses are below their numbers of variables.
ghost use Rattle.std.specs.Prelude.{◌↔◌, IsTrue};
ghost use Rattle.step_clause.specs.Justifications.{AreNumbered, IsNumbered, IsNumberedList};

use dk_syntax::{Clause, Seq};
use normal_form::ClauseList;
use unifier::terms_below;

/// Whether all variables of a clause are below its number of variables.
pub fn is_numbered(clause: &Clause) -> bool
    ensures { IsTrue result ↔ IsNumbered clause.now }
{
    for literal in clause.lits.as_slice() {
        if !terms_below(literal.args.as_slice(), clause.vars) {
            return false;
        }
    }
    true
}

fn is_numbered_list(list: &ClauseList) -> bool
    ensures { IsTrue result ↔ IsNumberedList list.now }
{
    for row in list.rows.as_slice() {
        if !is_numbered(&row.clause) {
            return false;
        }
    }
    true
}

/// The same of each clause of each list.
pub fn are_numbered(parents: &Seq<ClauseList>) -> bool
    ensures { IsTrue result ↔ AreNumbered parents.now }
{
    for list in parents.as_slice() {
        if !is_numbered_list(list) {
            return false;
        }
    }
    true
}
