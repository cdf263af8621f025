//! What a source says of a step.
#![tactic(auto, using(crate::proofs::SourceLaws::source_steps))]

ghost use Rattle.std.specs.Prelude.{◌≡◌, ◌++◌, map, option_to_list, OnOk};
ghost use Rattle.std.specs.List.{list_all};
ghost use Rattle.dk_syntax.specs.Symbols.{joined};
ghost use Rattle.tstp_trace.specs.Sources as spec;

use dk_syntax::{Name, NoMemory, Seq};
use std::alloc::Global;
use tptp_text::Source;

/// Whether the source is a name, or an inference whose parents are names and such inferences.
#[cycle(derived)]
pub fn is_derived(source: &Source) -> bool
    ensures { result ≡ spec.is_derived source.now }
{
    match source {
        Source::Missing | Source::File(_) | Source::Other => false,
        Source::Plain(_) => true,
        Source::Inference { status: _, parents } => are_derived(parents.as_slice()),
    }
}

#[cycle(derived)]
fn are_derived(sources: &[Source]) -> bool
    ensures { result ≡ list_all (λ derived. derived) (map spec.is_derived sources.now) }
{
    for source in sources {
        if !is_derived(source) {
            return false;
        }
    }
    true
}

/// Adds the names in the source, from left to right.
#[cycle(names)]
pub fn add_names(alloc: Global, names: &mut Seq<Name>, source: &Source) -> Result<(), NoMemory>
    ensures { OnOk result (names.new ≡ names.old ++ spec.names_in source.now) }
{
    match source {
        Source::Missing | Source::File(_) | Source::Other => Ok(()),
        Source::Plain(name) => {
            names.push(name.copy(alloc)?)?;
            Ok(())
        }
        Source::Inference { status: _, parents } => add_all_names(alloc, names, parents.as_slice()),
    }
}

#[cycle(names)]
fn add_all_names(alloc: Global, names: &mut Seq<Name>, sources: &[Source]) -> Result<(), NoMemory>
    ensures { OnOk result (names.new ≡ names.old ++ joined (map spec.names_in sources.now)) }
{
    for source in sources {
        add_names(alloc, names, source)?;
    }
    Ok(())
}

fn add_status(
    alloc: Global,
    statuses: &mut Seq<Name>,
    status: &Option<Name>,
) -> Result<(), NoMemory>
    ensures { OnOk result (statuses.new ≡ statuses.old ++ option_to_list status.now) }
{
    match status {
        None => Ok(()),
        Some(status) => {
            statuses.push(status.copy(alloc)?)?;
            Ok(())
        }
    }
}

/// Adds the statuses of the inference and of its nested inferences, from left to right.
#[cycle(statuses)]
pub fn add_statuses(
    alloc: Global,
    statuses: &mut Seq<Name>,
    source: &Source,
) -> Result<(), NoMemory>
    ensures { OnOk result (statuses.new ≡ statuses.old ++ spec.statuses_in source.now) }
{
    match source {
        Source::Missing | Source::Plain(_) | Source::File(_) | Source::Other => Ok(()),
        Source::Inference { status, parents } => {
            add_status(alloc, statuses, status)?;
            add_all_statuses(alloc, statuses, parents.as_slice())
        }
    }
}

#[cycle(statuses)]
fn add_all_statuses(
    alloc: Global,
    statuses: &mut Seq<Name>,
    sources: &[Source],
) -> Result<(), NoMemory>
    ensures { OnOk result (statuses.new ≡ statuses.old ++ joined (map spec.statuses_in sources.now)) }
{
    for source in sources {
        add_statuses(alloc, statuses, source)?;
    }
    Ok(())
}
