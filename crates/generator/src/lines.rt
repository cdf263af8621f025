//! The lines, one after the other.
ghost use Rattle.std.specs.Prelude.{◌≡◌, ◌+◌, ◌<◌, ◌^◌, ◌++◌, OnOk, codes, decimal};
ghost use Rattle.generator.specs.Files as spec;

use crate::bytes::{put, put_with};
use dk_syntax::NoMemory;

/// An axiom up to its formula's end.
fn put_next(out: &mut Vec<u8>, i: u32) -> Result<(), NoMemory>
    requires { i + 1 < 2 ^ 32 }
    ensures { OnOk result (out.new.items ≡ out.old.items ++ spec.next_front i) }
{
    put_with(out, b"fof(next", i)?;
    put(out, b",axiom,")?;
    put_formula(out, i)
}

fn put_formula(out: &mut Vec<u8>, i: u32) -> Result<(), NoMemory>
    requires { i + 1 < 2 ^ 32 }
    ensures { OnOk result (out.new.items ≡ out.old.items ++ spec.formula_text i) }
{
    put_with(out, b"![X]:(p", i)?;
    put_with(out, b"(X)=>?[Y]:(r(X,Y)&p", i + 1)?;
    put(out, b"(Y)))")
}

/// The conjecture up to its formula's end.
fn put_goal(out: &mut Vec<u8>, n: u32) -> Result<(), NoMemory>
    ensures { OnOk result (out.new.items ≡ out.old.items ++ spec.goal_front n) }
{
    put_with(out, b"fof(goal,conjecture,?[X]:p", n)?;
    put(out, b"(X)")
}

/// An axiom of the problem.
pub(crate) fn put_axiom(out: &mut Vec<u8>, i: u32) -> Result<(), NoMemory>
    requires { i + 1 < 2 ^ 32 }
    ensures { OnOk result (out.new.items ≡ out.old.items ++ spec.axiom_line i) }
{
    put_next(out, i)?;
    put(out, b").\n")
}

/// The same as a leaf of the trace.
pub(crate) fn put_leaf(out: &mut Vec<u8>, i: u32) -> Result<(), NoMemory>
    requires { i + 1 < 2 ^ 32 }
    ensures { OnOk result (out.new.items ≡ out.old.items ++ spec.leaf_line i) }
{
    put_next(out, i)?;
    put_with(out, b",file(g,next", i)?;
    put(out, b")).\n")
}

/// The conjecture of the problem.
pub(crate) fn put_conjecture(out: &mut Vec<u8>, n: u32) -> Result<(), NoMemory>
    ensures { OnOk result (out.new.items ≡ out.old.items ++ spec.conjecture_line n) }
{
    put_goal(out, n)?;
    put(out, b").\n")
}

fn put_image(out: &mut Vec<u8>, i: u32) -> Result<(), NoMemory>
    requires { i + 1 < 2 ^ 32 }
    ensures { OnOk result (out.new.items ≡ out.old.items ++ spec.image_text i) }
{
    put_with(out, b"![X]:(~p", i)?;
    put_with(out, b"(X)|(r(X,s", i)?;
    put_with(out, b"(X))&p", i + 1)?;
    put_with(out, b"(s", i)?;
    put(out, b"(X))))")
}

/// The Skolem step of an axiom.
pub(crate) fn put_skolem(out: &mut Vec<u8>, i: u32) -> Result<(), NoMemory>
    requires { i + 1 < 2 ^ 32 }
    ensures { OnOk result (out.new.items ≡ out.old.items ++ spec.skolem_line i) }
{
    put_with(out, b"fof(sk", i)?;
    put(out, b",plain,")?;
    put_image(out, i)?;
    put_with(out, b",inference(k,[status(esa)],[next", i)?;
    put(out, b"])).\n")
}

/// The name of what that many axioms lead to.
fn put_before(out: &mut Vec<u8>, i: u32) -> Result<(), NoMemory>
    ensures { OnOk result (out.new.items ≡ out.old.items ++ spec.before i) }
{
    if i == 0 {
        return put(out, b"base");
    }
    put_with(out, b"d", i)
}

/// The step that takes an axiom's image, with the term that it leads to.
pub(crate) fn put_step(out: &mut Vec<u8>, i: u32, term: &[u8]) -> Result<(), NoMemory>
    requires number { i + 1 < 2 ^ 32 }
    requires term { term.now ≡ spec.term_text (i + 1) }
    ensures { OnOk result (out.new.items ≡ out.old.items ++ spec.step_line i) }
{
    put_with(out, b"cnf(d", i + 1)?;
    put_with(out, b",plain,p", i + 1)?;
    put(out, b"(")?;
    put(out, term)?;
    put_parents(out, i)
}

fn put_parents(out: &mut Vec<u8>, i: u32) -> Result<(), NoMemory>
    ensures { OnOk result (out.new.items ≡ out.old.items ++ spec.parents_text i) }
{
    put(out, b"),inference(r,[status(thm)],[")?;
    put_before(out, i)?;
    put_with(out, b",sk", i)?;
    put(out, b"])).\n")
}

/// The conjecture as a leaf, its negation, and the last step.
pub(crate) fn put_end(out: &mut Vec<u8>, n: u32) -> Result<(), NoMemory>
    ensures { OnOk result (out.new.items ≡ out.old.items ++ spec.end_lines n) }
{
    put_goal(out, n)?;
    put(out, b",file(g,goal)).\n")?;
    put_negation(out, n)?;
    put_last(out, n)
}

fn put_negation(out: &mut Vec<u8>, n: u32) -> Result<(), NoMemory>
    ensures { OnOk result (out.new.items ≡ out.old.items ++ spec.negation_line n) }
{
    put_with(out, b"fof(neg,negated_conjecture,![X]:~p", n)?;
    put(out, b"(X),inference(n,[status(cth)],[goal])).\n")
}

fn put_last(out: &mut Vec<u8>, n: u32) -> Result<(), NoMemory>
    ensures { OnOk result (out.new.items ≡ out.old.items ++ spec.last_line n) }
{
    put(out, b"cnf(end,plain,$false,inference(r,[status(thm)],[")?;
    put_before(out, n)?;
    put(out, b",neg])).\n")
}
