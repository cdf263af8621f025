//! What is found of steps.
ghost use Rattle.std.specs.Prelude.{◌≡◌, IfOk};

use dk_syntax::{NoMemory, Seq, SymKey};
use std::alloc::Global;
use step_chain::Chain;
use step_clause::Justification;
use step_compose::Composed;
use step_skolem::SkMap;

/// Why a step is wrong.
#[derive(Debug, Drop)]
pub enum Reason {
    /// The problem has no item of the leaf's name.
    UnknownLeaf,
    /// The problem's item of that name has another formula.
    AlteredLeaf,
    /// A parent is a leaf that names the conjecture, and the step doesn't say that it negates it.
    ConjectureParent,
    /// The step says that it negates the conjecture, and its parent isn't a leaf that names it.
    NotConjecture,
    /// The step's map introduces a symbol that was there before.
    NotFresh(SymKey),
    /// The step is no image of its parent, structural or composed.
    NotImage,
    /// The normal form of the step or of a parent has an existential.
    HasExists,
    /// No parent's formula has that symbol. It is the first such one.
    AlienSymbol(SymKey),
    /// The clause with that number doesn't follow from the parents. It is the first such one.
    Unjustified(u32),
}

impl Reason {
    pub fn copy(&self, alloc: Global) -> Result<Reason, NoMemory>
        ensures { IfOk result (λ reason. reason ≡ self.now) }
    {
        match self {
            Reason::UnknownLeaf => Ok(Reason::UnknownLeaf),
            Reason::AlteredLeaf => Ok(Reason::AlteredLeaf),
            Reason::ConjectureParent => Ok(Reason::ConjectureParent),
            Reason::NotConjecture => Ok(Reason::NotConjecture),
            Reason::NotFresh(symbol) => Ok(Reason::NotFresh(symbol.copy(alloc)?)),
            Reason::NotImage => Ok(Reason::NotImage),
            Reason::HasExists => Ok(Reason::HasExists),
            Reason::AlienSymbol(symbol) => Ok(Reason::AlienSymbol(symbol.copy(alloc)?)),
            Reason::Unjustified(clause) => Ok(Reason::Unjustified(*clause)),
        }
    }
}

/// The limit that a form passes: more than 100,000 nodes, or a clause list with more than 4,096 clauses or else with
/// more than 65,536 literals.
#[derive(Clone, Copy, Debug, PartialEq, Eq)]
pub enum Limit {
    NormalForm,
    Clauses,
    Literals,
}

/// What is found of a step.
#[derive(Drop)]
pub enum Verdict {
    /// It is a hypothesis of the problem.
    Leaf,
    /// It is the problem's conjecture.
    Conjecture,
    /// Its form is that of its one parent, or a Skolem image of it. The map leads from the parent's representative.
    Structural(SkMap),
    /// Each of its clauses follows from its parents by a justification.
    Clausal(Seq<Justification>),
    /// Each of its clauses follows from its three to eight parents by a chain.
    Chained(Seq<Chain>),
    /// Each of its clauses follows from an image of its one parent, all existentials of which are replaced.
    Composes(Composed),
    Wrong(Reason),
    Over(Limit),
}

/// The verdicts on the steps of a trace, in the order of the file.
#[derive(Drop)]
pub struct Verdicts {
    pub list: Seq<Verdict>,
}
