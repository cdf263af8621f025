//! The parents of a step, and marks on steps.
ghost use Rattle.std.specs.Prelude.{◌≡◌, ℕ, ◌↔◌, IsTrue, Contains, MatchOption, get_or, false};
ghost use Rattle.derivation_graph.specs.Agendas.{IsMarked, IsUnmarked};
ghost use Rattle.derivation_graph.specs.Graphs.{IsStep, parents_in};

use dk_syntax::Seq;

/// The parents of the step of that number, none where there is no such step.
pub fn parents_at(rows: &[Seq<u32>], step: u32) -> &[u32]
    ensures { result.now ≡ parents_in rows.entry.now step }
{
    if step == 0 {
        return &[];
    }
    match rows.get(step as usize - 1) {
        Some(row) => row.as_slice(),
        None => &[],
    }
}

/// Whether the number is marked.
pub fn is_marked(marks: &[bool], number: u32) -> bool
    ensures { result ≡ get_or marks.now number false }
{
    marks.get(number as usize).copied().unwrap_or(false)
}

/// Whether the number is that of a step without a mark.
pub fn is_unmarked_step(rows: &[Seq<u32>], marks: &[bool], number: u32) -> bool
    ensures { IsTrue result ↔ (IsStep rows.now number × IsUnmarked marks.now number) }
{
    0 < number && number as usize <= rows.len() && !is_marked(marks, number)
}

/// The first of the parents that isn't marked.
pub fn first_unmarked(marks: &[bool], parents: &[u32]) -> Option<u32>
    ensures { MatchOption result ((parent : ℕ) → Contains parents.now parent
        → IsMarked marks.now parent) (λ parent. Contains parents.now parent
        × IsUnmarked marks.now parent) }
{
    for parent in parents {
        if !is_marked(marks, *parent) {
            return Some(*parent);
        }
    }
    None
}
