//! Where a step comes from.
ghost use Rattle.std.specs.Prelude.{◌≡◌, length, MatchResult};
ghost use Rattle.tstp_trace.specs.Sources.{parts_fault};
ghost use Rattle.tstp_trace.specs.Traces.{IsDerivation, IsSourceAnswer};

use crate::fault::{TraceFault, Unsupported};
use crate::sources::{add_names, add_statuses, is_derived};
use crate::step::{MAX_PARENTS, StepSource};
use crate::words::{all_known, has_word, has_word_twice, once};
use dk_syntax::{Name, Seq};
use std::alloc::Global;
use tptp_text::Source;

/// What isn't supported of a source's parts.
fn fault_of_parts(derived: bool, statuses: &[Name], parents: usize) -> Option<Unsupported>
    ensures { result ≡ parts_fault derived statuses.now parents }
{
    if !derived {
        return Some(Unsupported::Word);
    }
    if !all_known(statuses) {
        return Some(Unsupported::Status);
    }
    if parents == 0 {
        return Some(Unsupported::NoParent);
    }
    if MAX_PARENTS < parents {
        return Some(Unsupported::ManyParents);
    }
    let flagged = has_word(statuses, b"cth") || has_word(statuses, b"esa");
    if has_word_twice(statuses, b"cth") || (flagged && 1 < parents) {
        return Some(Unsupported::Mixed);
    }
    None
}

/// A step that is derived by the source.
fn derivation(alloc: Global, step: u32, source: &Source) -> Result<StepSource, TraceFault>
    ensures { IsDerivation step source.now result }
{
    let mut statuses = Seq::from_vec(Vec::new(alloc));
    add_statuses(alloc, &mut statuses, source)?;
    let mut names = Seq::from_vec(Vec::new(alloc));
    add_names(alloc, &mut names, source)?;
    let parents = once(alloc, names.as_slice())?;
    let statuses = statuses.as_slice();
    match fault_of_parts(is_derived(source), statuses, parents.len()) {
        Some(kind) => Err(TraceFault::Unsupported { step, kind }),
        None => Ok(StepSource::Derived {
            cth: has_word(statuses, b"cth"),
            esa: has_word(statuses, b"esa"),
            parents,
        }),
    }
}

fn leaf(alloc: Global, name: &Name) -> Result<StepSource, TraceFault>
    ensures { MatchResult result (λ found. found ≡ StepSource.Leaf name.now)
        (λ fault. fault ≡ TraceFault.Memory) }
{
    let name = name.copy(alloc)?;
    Ok(StepSource::Leaf(name))
}

/// Where the step of that name comes from, by its item's source.
pub fn source_of(
    alloc: Global,
    step: u32,
    name: &Name,
    source: &Source,
) -> Result<StepSource, TraceFault>
    ensures { IsSourceAnswer step name.now source.now result }
{
    match source {
        Source::Missing => leaf(alloc, name),
        Source::File(None) => leaf(alloc, name),
        Source::File(Some(original)) => leaf(alloc, original),
        Source::Plain(_) | Source::Inference { .. } | Source::Other => {
            derivation(alloc, step, source)
        }
    }
}
