//! Tests of signs and symbols, which end a search where a literal of a middle clause can't go.
ghost use Rattle.std.specs.Bool.{OnTrue};
ghost use Rattle.std.specs.Prelude.{◌≡◌, ◌↔◌, true, IsTrue};
ghost use Rattle.std.specs.List.{All};
ghost use Rattle.step_clause.specs.Symbols.{AnyOf};
ghost use Rattle.step_chain.specs.Symbols.{HasOne, IsOf, HasPartner};

use dk_syntax::{Clause, Literal, SymKey};
use normal_form::ClauseList;

fn has_literal(literals: &[Literal], sign: bool, pred: &SymKey) -> bool
    ensures { IsTrue result ↔ AnyOf (IsOf sign pred.now) literals.now }
{
    for literal in literals {
        if literal.positive == sign && literal.pred.same(pred) {
            return true;
        }
    }
    false
}

fn list_has_literal(list: &ClauseList, sign: bool, pred: &SymKey) -> bool
    ensures { IsTrue result ↔ HasOne sign pred.now list.now }
{
    for row in list.rows.as_slice() {
        if has_literal(row.clause.lits.as_slice(), sign, pred) {
            return true;
        }
    }
    false
}

fn lists_have_literal(lists: &[ClauseList], sign: bool, pred: &SymKey) -> bool
    ensures { IsTrue result ↔ AnyOf (HasOne sign pred.now) lists.now }
{
    for list in lists {
        if list_has_literal(list, sign, pred) {
            return true;
        }
    }
    false
}

fn may_go(target: &Clause, rest: &[ClauseList], literal: &Literal) -> bool
    ensures { IsTrue result ↔ HasPartner target.now rest.now literal.now }
{
    has_literal(target.lits.as_slice(), literal.positive, &literal.pred)
        || lists_have_literal(rest, !literal.positive, &literal.pred)
}

fn all_may_go(target: &Clause, rest: &[ClauseList], literals: &[Literal]) -> bool
    ensures { IsTrue result ↔ All (HasPartner target.now rest.now) literals.now }
{
    for literal in literals {
        if !may_go(target, rest, literal) {
            return false;
        }
    }
    true
}

/// Whether a literal of the middle clause can't go, where all of them have to.
pub fn is_hopeless(target: &Clause, middle: &Clause, rest: &[ClauseList], needs: bool) -> bool
    ensures { OnTrue result ((needs ≡ true)
        × ¬ All (HasPartner target.now rest.now) middle.now.lits) }
{
    needs && !all_may_go(target, rest, middle.lits.as_slice())
}
