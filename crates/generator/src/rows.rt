//! Rows of lines, one for each axiom.
ghost use Rattle.std.specs.Prelude.{◌≡◌, ◌+◌, ◌++◌, IfOk, OnOk, codes};
ghost use Rattle.generator.specs.Files.{axiom_lines, leaf_lines, skolem_lines, step_lines, term_text};

use crate::bytes::{put, put_with};
use crate::lines::{put_axiom, put_leaf, put_skolem, put_step};
use dk_syntax::NoMemory;
use std::alloc::Global;

pub(crate) fn put_axioms(out: &mut Vec<u8>, n: u32) -> Result<(), NoMemory>
    ensures { OnOk result (out.new.items ≡ out.old.items ++ axiom_lines n) }
{
    for i in 0..n {
        put_axiom(out, i)?;
    }
    Ok(())
}

pub(crate) fn put_leaves(out: &mut Vec<u8>, n: u32) -> Result<(), NoMemory>
    ensures { OnOk result (out.new.items ≡ out.old.items ++ leaf_lines n) }
{
    for i in 0..n {
        put_leaf(out, i)?;
    }
    Ok(())
}

pub(crate) fn put_skolems(out: &mut Vec<u8>, n: u32) -> Result<(), NoMemory>
    ensures { OnOk result (out.new.items ≡ out.old.items ++ skolem_lines n) }
{
    for i in 0..n {
        put_skolem(out, i)?;
    }
    Ok(())
}

/// The term around that of the axiom before.
fn around(alloc: Global, i: u32, term: &[u8]) -> Result<Vec<u8>, NoMemory>
    requires { term.now ≡ term_text i }
    ensures { IfOk result (λ outer. outer.items ≡ term_text (i + 1)) }
{
    let mut outer = Vec::new(alloc);
    put_with(&mut outer, b"s", i)?;
    put(&mut outer, b"(")?;
    put(&mut outer, term)?;
    put(&mut outer, b")")?;
    Ok(outer)
}

pub(crate) fn put_steps(alloc: Global, out: &mut Vec<u8>, n: u32) -> Result<(), NoMemory>
    ensures { OnOk result (out.new.items ≡ out.old.items ++ step_lines n) }
{
    let mut term = Vec::from_slice(alloc, b"c")?;
    for i in 0..n {
        term = around(alloc, i, &term)?;
        put_step(out, i, &term)?;
    }
    Ok(())
}
