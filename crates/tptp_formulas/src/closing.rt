//! Closed formulas.
#![tactic(auto, using(crate::proofs::ClosingSteps::closing_steps))]

ghost use Rattle.std.specs.Prelude.{◌≡◌, ◌<◌, ◌≤◌, true, false, length, IfOk, MatchOption, OnOk};
ghost use Rattle.dk_syntax.specs.Depth.{formula_depth};
ghost use Rattle.tptp_formulas.specs.Meaning.{body_of, closed_formula, too_deep};
ghost use Rattle.tptp_formulas.specs.Scopes.{first_free, free_names};
ghost use Rattle.tptp_formulas.specs.Proper.{IfPlain, IsProper};

use crate::body::Body;
use crate::fault::BodyFault;
use crate::meaning::{build_formula, close_over};
use crate::outside::find_outside;
use crate::raw::Raw;
use crate::raw_depth::count_depth;
use crate::scopes::few_free;
use dk_syntax::{Formula, Name, NoMemory, Seq};
use std::alloc::Global;

/// The free variables, each once, in order of first occurrence in the text, or `None` where they are
/// more than 1,000.
fn free_variables(alloc: Global, raw: &Raw) -> Result<Option<Seq<Name>>, NoMemory>
    ensures { IfOk result (λ found. MatchOption found (1000 < length (free_names raw.now))
        (λ names. names ≡ free_names raw.now)) }
{
    let names = few_free(alloc, raw)?;
    if names.len() > 1000 {
        Ok(None)
    } else {
        Ok(Some(names))
    }
}

/// The closed formula. Its depth is known before it is built.
fn close(alloc: Global, raw: &Raw) -> Result<Formula, BodyFault>
    ensures closed { IfOk result (λ f. f ≡ closed_formula raw.now) }
    ensures shallow { OnOk result (formula_depth (closed_formula raw.now) ≤ 1000) }
    ensures deep { result ≡ Err BodyFault.TooDeep → 1000 < formula_depth (closed_formula raw.now) }
{
    let depth = count_depth(raw);
    if depth > 1000 {
        return Err(BodyFault::TooDeep);
    }
    match free_variables(alloc, raw)? {
        None => Err(BodyFault::TooDeep),
        Some(mut names) => {
            if depth.saturating_add(names.len() as u64) > 1000 {
                return Err(BodyFault::TooDeep);
            }
            let inner = build_formula(alloc, raw, &mut names)?;
            Ok(close_over(alloc, names.as_slice(), inner)?)
        }
    }
}

/// What the item says: the kind of the formula's first construct outside the profile, or the formula
/// itself, whose free variables are closed by universal quantifiers, the first that occurs outermost.
/// Such a formula is closed and well-formed, and has no `Any`.
pub fn make_body(alloc: Global, raw: &Raw) -> Result<Body, BodyFault>
    ensures body { IfOk result (λ body. body ≡ body_of raw.now) }
    ensures shallow { OnOk result (too_deep (body_of raw.now) ≡ false) }
    ensures deep { result ≡ Err BodyFault.TooDeep → too_deep (body_of raw.now) ≡ true }
    ensures proper { IfOk result (λ body. IfPlain body IsProper) }
{
    if let Some(kind) = find_outside(raw) {
        return Ok(Body::Outside(kind));
    }
    let f = close(alloc, raw)?;
    Ok(Body::Plain(f))
}

/// The first free variable in the order of the text, where there is one.
pub fn free_of(alloc: Global, raw: &Raw) -> Result<Option<Name>, NoMemory>
    ensures { IfOk result (λ name. name ≡ first_free raw.now) }
{
    let names = few_free(alloc, raw)?;
    match names.as_slice() {
        [] => Ok(None),
        [first, ..] => Ok(Some(first.copy(alloc)?)),
    }
}
