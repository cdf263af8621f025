//! Traces.
use dk_syntax::{Formula, Name, Seq};

/// The most parents that a step may have.
pub const MAX_PARENTS: usize = 8;

/// Where a step comes from.
#[derive(Debug, Drop)]
pub enum StepSource {
    /// The problem's item of that name.
    Leaf(Name),
    /// The steps of these names. `cth` and `esa` say that one of its inferences has that status.
    Derived {
        cth: bool,
        esa: bool,
        parents: Seq<Name>,
    },
}

/// A step of a trace.
#[derive(Debug, Drop)]
pub struct Step {
    pub name: Name,
    pub role: Name,
    pub formula: Formula,
    pub source: StepSource,
}

/// The steps of a trace, in the order of the file.
#[derive(Debug, Drop)]
pub struct Trace {
    pub steps: Seq<Step>,
}
