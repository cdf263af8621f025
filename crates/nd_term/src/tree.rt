//! Thin trees.
#![tactic(auto, using(crate::proofs::TreeSteps::tree_steps))]

ghost use Rattle.std.specs.Prelude.{◌≡◌, IfOk};
ghost use Rattle.nd_term.specs.TreeKinds.{is_both, is_empty, is_leaf, leaves};
ghost use Rattle.nd_term.specs.Trees.{tree_of};

use dk_syntax::{Boxed, NoMemory, Term};

/// One path of choices through a signed formula.
#[derive(Drop)]
pub enum Tree {
    /// `$true` or `$false`.
    NoLiteral,
    /// An atom.
    Leaf,
    /// Through a negation.
    BelowNot(Boxed<Tree>),
    /// To the first side.
    Left(Boxed<Tree>),
    /// To the second side.
    Right(Boxed<Tree>),
    /// Through both sides.
    Both(Boxed<Tree>, Boxed<Tree>),
    /// A ground term for a quantifier's variable. Its variable k is the k-th eigenvariable.
    Choice(Term, Boxed<Tree>),
    /// The eigenvariable of that number for a quantifier's variable.
    Eigenvariable(u32, Boxed<Tree>),
    /// `any` for the variable of a quantifier that binds nothing.
    Vacuous(Boxed<Tree>),
}

impl Tree {
    /// Whether the tree goes through both sides.
    pub fn is_both(&self) -> bool
        ensures { result ≡ is_both (tree_of self.now) }
    {
        match self {
            Tree::Both(_, _) => true,
            Tree::NoLiteral | Tree::Leaf | Tree::BelowNot(_) | Tree::Left(_) => false,
            Tree::Right(_) | Tree::Choice(_, _) | Tree::Eigenvariable(_, _) | Tree::Vacuous(_) =>
                false,
        }
    }

    /// Whether it is the tree of an atom.
    pub fn is_leaf(&self) -> bool
        ensures { result ≡ is_leaf (tree_of self.now) }
    {
        match self {
            Tree::Leaf => true,
            Tree::NoLiteral | Tree::BelowNot(_) | Tree::Left(_) | Tree::Right(_) => false,
            Tree::Both(_, _) | Tree::Choice(_, _) | Tree::Eigenvariable(_, _) | Tree::Vacuous(_) =>
                false,
        }
    }

    /// Whether it is the tree of `$true` or `$false`.
    pub fn is_empty(&self) -> bool
        ensures { result ≡ is_empty (tree_of self.now) }
    {
        match self {
            Tree::NoLiteral => true,
            Tree::Leaf | Tree::BelowNot(_) | Tree::Left(_) | Tree::Right(_) => false,
            Tree::Both(_, _) | Tree::Choice(_, _) | Tree::Eigenvariable(_, _) | Tree::Vacuous(_) =>
                false,
        }
    }

    /// How many literals the tree gives. A number past `u32` is want of memory.
    pub fn leaves(&self) -> Result<u32, NoMemory>
        ensures { IfOk result (λ n. n ≡ leaves (tree_of self.now)) }
    {
        match self {
            Tree::NoLiteral => Ok(0),
            Tree::Leaf => Ok(1),
            Tree::Both(a, b) => {
                let first = a.get().leaves()?;
                let second = b.get().leaves()?;
                first.checked_add(second).ok_or(NoMemory)
            }
            Tree::BelowNot(a) | Tree::Left(a) | Tree::Right(a) | Tree::Choice(_, a) => {
                a.get().leaves()
            }
            Tree::Eigenvariable(_, a) | Tree::Vacuous(a) => a.get().leaves(),
        }
    }
}
