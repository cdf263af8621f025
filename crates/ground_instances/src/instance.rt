//! Instances.
ghost use Rattle.ground_instances.specs.Rows.{AreRowsBelow};

use dk_syntax::{Literal, NoMemory, Seq, SymKey, Term, TermTable};

/// A ground instance of a clause.
#[derive(Debug, Drop)]
pub struct Instance {
    /// The number of the step, counted from 1.
    pub step: u32,
    /// 0 for a clause of the step's own list. For a chained step `j` stands for its middle clause of number `j`, counted
    /// from 1, and for a composed step 1 for a clause of its image.
    pub stage: u32,
    /// The number of the clause in its list. For a middle clause it is that of the chain's target.
    pub clause: u32,
    /// The terms of the clause's variables.
    pub terms: Seq<Term>,
    /// The ground clause.
    pub lits: Seq<Literal>,
    /// The numbers, in the list, of the instances that this one needs.
    pub needs: Seq<u32>,
}

/// A literal whose arguments are numbers of terms in a table.
#[derive(Debug, Drop)]
pub struct RowLit {
    pub positive: bool,
    pub pred: SymKey,
    pub args: Seq<u32>,
}

/// An instance whose terms are numbers in a table.
#[derive(Debug, Drop)]
pub struct Row {
    pub step: u32,
    pub stage: u32,
    pub clause: u32,
    pub terms: Seq<u32>,
    pub lits: Seq<RowLit>,
    pub needs: Seq<u32>,
}

/// A list of instances whose terms stand in one table. Every number of a term in a row is one of the table's.
#[derive(Drop)]
pub struct Instances {
    pub table: TermTable,
    pub rows: Seq<Row>,
    ghost below: { AreRowsBelow table rows },
}

/// Why there are no instances.
#[derive(Clone, Copy, Debug, PartialEq, Eq)]
pub enum PullFault {
    /// They weigh more than the limit.
    OverWeight { limit: u64 },
    /// An instance of that step has a tree weight above 1,000,000. It is the first such one.
    OverWide { step: u32 },
    Memory,
}

impl From<NoMemory> for PullFault {
    ghost use Rattle.std.specs.Prelude.{◌≡◌};
    ghost use Rattle.ground_instances.specs.declared.instance.PullFault.TheVariants.{Memory};

    ghost from_gives = { λ _ fault. fault ≡ Memory };

    fn from(_: NoMemory) -> PullFault {
        PullFault::Memory
    }
}
