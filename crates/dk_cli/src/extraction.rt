//! What `extract` makes of a derivation: its derived steps as problems.
ghost use Rattle.dk_cli.specs.Extraction.{IsExtracted};
ghost use Rattle.dk_cli.specs.Stages.{Answered};
ghost use Rattle.dk_cli.specs.Steps.{answer_view};

use crate::derivation::Derivation;
use crate::refusal::Refusal;
use extract::problems_of;
use std::alloc::Global;

/// The derived steps as problems. No step is judged for it.
pub fn extracted(alloc: Global, derivation: &Derivation) -> Result<Vec<u8>, Refusal>
    ensures { Answered (IsExtracted derivation.now) (answer_view result) }
{
    let text = problems_of(alloc, &derivation.trace, &derivation.graph)?;
    Ok(text)
}
