//! The root.
ghost use Rattle.std.specs.Prelude.{◌≡◌, ◌↔◌, ◌<◌, ◌^◌, List, length, slice_get, Some, IsTrue, true};
ghost use Rattle.dk_syntax.specs.declared.Formula.{Formula as Written};
ghost use Rattle.derivation_graph.specs.Roots.{IsFirstFreeMark, IsRootAnswer, MarksFalsities};

use dk_syntax::{Formula, Seq};

fn is_false(formula: &Formula) -> bool
    ensures { IsTrue result ↔ (formula.now ≡ Formula.False) }
{
    matches!(formula, Formula::False)
}

fn is_barred(barred: &[bool], place: usize) -> bool
    ensures { IsTrue result ↔ (slice_get barred.now place ≡ Some true) }
{
    barred.get(place).copied().unwrap_or(false)
}

/// The number of the first step whose formula is `$false` and which isn't barred.
pub fn root(formulas: &Seq<Formula>, barred: &Seq<bool>) -> Option<u32>
    requires { length formulas.now < 2 ^ 32 }
    ensures { IsRootAnswer formulas.now barred.now result }
{
    let barred = barred.as_slice();
    for (place, formula) in formulas.as_slice().iter().enumerate() {
        if is_false(formula) && !is_barred(barred, place) {
            return Some(place as u32 + 1);
        }
    }
    None
}

/// The number of the first step that is marked and isn't barred.
fn first_free_mark(marks: &[bool], barred: &[bool]) -> Option<u32>
    requires { length marks.now < 2 ^ 32 }
    ensures { IsFirstFreeMark marks.now barred.now result }
{
    for (place, marked) in marks.iter().enumerate() {
        if *marked && !is_barred(barred, place) {
            return Some(place as u32 + 1);
        }
    }
    None
}

/// The same root, by marks that tell where the formulas of the steps are `$false`: no list of formulas is needed.
pub fn root_by_marks(marks: &Seq<bool>, barred: &Seq<bool>) -> Option<u32>
    requires { length marks.now < 2 ^ 32 }
    ensures { (formulas : List Written) → MarksFalsities formulas marks.now
        → IsRootAnswer formulas barred.now result }
{
    first_free_mark(marks.as_slice(), barred.as_slice())
}
