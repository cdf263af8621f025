//! How many nodes terms have.
#![tactic(auto, using(crate::proofs::CountLaws::count_steps))]

ghost use Rattle.std.specs.Prelude.{◌≡◌, ◌+◌, IfOk};
ghost use Rattle.lp_term.specs.View.{term_of};
ghost use Rattle.lp_kernel.specs.Checking.{node_count};

use dk_syntax::NoMemory;
use lp_term::Lp;
use std::alloc::Global;

/// The sum; past `u64` it is want of memory.
pub(crate) fn added(a: u64, b: u64) -> Result<u64, NoMemory>
    ensures { IfOk result (λ n. n ≡ a + b) }
{
    a.checked_add(b).ok_or(NoMemory)
}

/// How many nodes a term has. The first parts that are still to be counted stand in a list.
pub(crate) fn nodes_of(alloc: Global, t: &Lp) -> Result<u64, NoMemory>
    ensures { IfOk result (λ n. n ≡ node_count (term_of t.now)) }
{
    let mut left = Vec::new(alloc);
    let mut rest = t;
    let mut count: u64 = 0;
    'nodes: loop {
        count = added(count, 1)?;
        match rest {
            Lp::App(first, last) => {
                left.push(first.get())?;
                rest = last.get();
            }
            Lp::Lam(first, last) => {
                left.push(first.get())?;
                rest = last.get();
            }
            Lp::Pi(first, last) => {
                left.push(first.get())?;
                rest = last.get();
            }
            Lp::Sort | Lp::Sym(_) | Lp::Var(_) | Lp::Pat(_) => match left.pop() {
                Some(next) => rest = next,
                None => return Ok(count),
            },
        }
    }
}
