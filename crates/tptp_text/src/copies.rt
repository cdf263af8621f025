//! Copies of items.
ghost use Rattle.std.specs.Prelude.{◌≡◌, IfOk};

use crate::item::{Item, Source};
use dk_syntax::{Name, NoMemory, Seq};
use std::alloc::Global;
use tptp_formulas::Body;

/// Copies a name that may be there.
fn copy_known(alloc: Global, name: &Option<Name>) -> Result<Option<Name>, NoMemory>
    ensures { IfOk result (λ copy. copy ≡ name.now) }
{
    match name {
        None => Ok(None),
        Some(name) => {
            let name = name.copy(alloc)?;
            Ok(Some(name))
        }
    }
}

fn copy_body(alloc: Global, body: &Body) -> Result<Body, NoMemory>
    ensures { IfOk result (λ copy. copy ≡ body.now) }
{
    match body {
        Body::Plain(formula) => {
            let formula = formula.copy(alloc)?;
            Ok(Body::Plain(formula))
        }
        Body::Outside(kind) => Ok(Body::Outside(*kind)),
    }
}

#[cycle(copy_source)]
fn copy_source(alloc: Global, source: &Source) -> Result<Source, NoMemory>
    ensures { IfOk result (λ copy. copy ≡ source.now) }
{
    match source {
        Source::Missing => Ok(Source::Missing),
        Source::Plain(name) => {
            let name = name.copy(alloc)?;
            Ok(Source::Plain(name))
        }
        Source::File(name) => {
            let name = copy_known(alloc, name)?;
            Ok(Source::File(name))
        }
        Source::Inference { status, parents } => {
            let status = copy_known(alloc, status)?;
            let parents = copy_sources(alloc, parents.as_slice())?;
            Ok(Source::Inference { status, parents })
        }
        Source::Other => Ok(Source::Other),
    }
}

#[cycle(copy_source)]
fn copy_sources(alloc: Global, sources: &[Source]) -> Result<Seq<Source>, NoMemory>
    ensures { IfOk result (λ all. all ≡ sources.now) }
{
    let mut all = Seq::from_vec(Vec::with_capacity(alloc, sources.len())?);
    for source in sources {
        all.push(copy_source(alloc, source)?)?;
    }
    Ok(all)
}

fn copy_item(alloc: Global, item: &Item) -> Result<Item, NoMemory>
    ensures { IfOk result (λ copy. copy ≡ item.now) }
{
    let name = item.name.copy(alloc)?;
    let role = item.role.copy(alloc)?;
    let body = copy_body(alloc, &item.body)?;
    let free = copy_known(alloc, &item.free)?;
    let source = copy_source(alloc, &item.source)?;
    Ok(Item {
        lang: item.lang,
        name,
        role,
        body,
        free,
        source,
    })
}

/// Copies each item of a list.
pub fn copy_items(alloc: Global, items: &[Item]) -> Result<Seq<Item>, NoMemory>
    ensures { IfOk result (λ all. all ≡ items.now) }
{
    let mut all = Seq::from_vec(Vec::with_capacity(alloc, items.len())?);
    for item in items {
        all.push(copy_item(alloc, item)?)?;
    }
    Ok(all)
}
