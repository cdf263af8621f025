//! Representatives of steps.
ghost use Rattle.std.specs.Prelude.{◌≡◌, None, IfOk};
ghost use Rattle.step_check.specs.Limits.{nodes_limit};
ghost use Rattle.step_check.specs.Notes.{AreForms, case_given, HangsSame, HangsSkolem, IsImageOf, IsReady, IsSound};
ghost use Rattle.step_check.specs.Representatives.{Represents};
ghost use Rattle.step_check.specs.Steps.{own_form};
ghost use Rattle.step_check.specs.Tables.{AreRight, IsKnown};
ghost use Rattle.step_skolem.specs.Carrying.{carried};

use crate::given::Given;
use crate::limits::full_limit_at;
use crate::notes::{Forms, Link, Representative};
use crate::own::own_form_of;
use crate::table::Table;
use dk_syntax::NoMemory;
use normal_form::{Nf, sorted_of};
use std::alloc::Global;
use step_skolem::{SkMap, carry, image_under};

/// The representative of a step, which is known, and whose own form is within the limit.
pub fn representative_of<'n>(
    given: &Given<'_>,
    forms: &'n Forms,
    images: &'n Table<Representative>,
    number: u32,
) -> &'n Nf
    requires forms { AreForms (case_given given.now) forms.now }
    requires images { AreRight (IsImageOf (case_given given.now)) images.now }
    requires own { IsKnown forms.now.owns number }
    requires known { IsKnown images.now number }
    requires within { nodes_limit (own_form (case_given given.now) number) ≡ None }
    ensures { Represents (case_given given.now) number result.now }
{
    match images.known(number) {
        Representative::Image(form) => form,
        Representative::Own => own_form_of(given, &forms.owns, number),
    }
}

/// A map of the parent's own form, carried to the parent's representative.
pub fn carried_map(
    alloc: Global,
    own: &Nf,
    representative: &Nf,
    map: &SkMap,
) -> Result<SkMap, NoMemory>
    ensures { IfOk result (λ other. other.entries
        ≡ carried own.now representative.now map.now.entries) }
{
    let from = sorted_of(alloc, own)?;
    let to = sorted_of(alloc, representative)?;
    carry(alloc, map, &from, &to)
}

/// The representative of a step that is the same as its parent up to order and grouping.
fn same_image(
    alloc: Global,
    given: &Given<'_>,
    forms: &Forms,
    number: u32,
    representative: &Nf,
) -> Result<Representative, NoMemory>
    requires forms { AreForms (case_given given.now) forms.now }
    requires known { IsKnown forms.now.owns number }
    requires link { HangsSame (case_given given.now) number representative.now }
    ensures { IfOk result (λ image. IsImageOf (case_given given.now) number image) }
{
    match full_limit_at(given, &forms.owns, number, representative) {
        Some(_) => Ok(Representative::Own),
        None => {
            let image = representative.copy(alloc)?;
            Ok(Representative::Image(image))
        }
    }
}

/// The representative of a step that is a Skolem image of its parent.
fn skolem_image_of(
    alloc: Global,
    given: &Given<'_>,
    forms: &Forms,
    number: u32,
    own: &Nf,
    representative: &Nf,
    map: &SkMap,
) -> Result<Representative, NoMemory>
    requires forms { AreForms (case_given given.now) forms.now }
    requires known { IsKnown forms.now.owns number }
    requires link { HangsSkolem (case_given given.now) number own.now representative.now
        map.now.entries }
    ensures { IfOk result (λ image. IsImageOf (case_given given.now) number image) }
{
    match full_limit_at(given, &forms.owns, number, representative) {
        Some(_) => Ok(Representative::Own),
        None => {
            let carried = carried_map(alloc, own, representative, map)?;
            let image = image_under(alloc, representative, &carried)?;
            Ok(Representative::Image(image))
        }
    }
}

/// The representative of a step that is ready.
pub fn image_of(
    alloc: Global,
    given: &Given<'_>,
    forms: &Forms,
    images: &Table<Representative>,
    number: u32,
) -> Result<Representative, NoMemory>
    requires sound { IsSound (case_given given.now) }
    requires forms { AreForms (case_given given.now) forms.now }
    requires images { AreRight (IsImageOf (case_given given.now)) images.now }
    requires ready { IsReady (case_given given.now) forms.now images.now number }
    ensures { IfOk result (λ image. IsImageOf (case_given given.now) number image) }
{
    match forms.links.known(number) {
        Link::Apart => Ok(Representative::Own),
        Link::Same(parent) => {
            let above = representative_of(given, forms, images, *parent);
            same_image(alloc, given, forms, number, above)
        }
        Link::Skolem(parent, map) => {
            let above = representative_of(given, forms, images, *parent);
            let own = own_form_of(given, &forms.owns, *parent);
            skolem_image_of(alloc, given, forms, number, own, above, map)
        }
    }
}
