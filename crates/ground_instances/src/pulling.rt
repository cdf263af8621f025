//! The instances of a root.
ghost use Rattle.std.specs.Prelude.{◌≡◌, IfOk};
ghost use Rattle.ground_instances.specs.Instances.{AreDifferent, EndsIn, HasNeedsBefore, IsPullAnswer};
ghost use Rattle.ground_instances.specs.Lists.{answer_of, HasExactTable, instances_of};
ghost use Rattle.ground_instances.specs.Verdicts.{AreRightVerdicts};
ghost use Rattle.ground_instances.specs.Keys.{judged_by};
ghost use Rattle.ground_instances.specs.Rows.{AreRowsBelow};

use crate::given::Given;
use crate::instance::{Instances, PullFault};
use crate::reading::first_wide;
use crate::state::State;
use crate::visiting::visited;
use derivation_graph::Graph;
use dk_syntax::Seq;
use std::alloc::Global;
use step_check::Verdicts;
use tstp_trace::Trace;

/// The instances that the root's empty clause needs.
pub fn pull_back(
    alloc: Global,
    trace: &Trace,
    graph: &Graph,
    verdicts: &Verdicts,
    root: u32,
    limit: u64,
) -> Result<Instances, PullFault>
    requires { AreRightVerdicts trace.now graph.now verdicts.now }
    ensures answer { IsPullAnswer (judged_by trace.now graph.now verdicts.now) root limit
        (answer_of result) }
    ensures once { IfOk result (λ list. AreDifferent (instances_of list)) }
    ensures before { IfOk result (λ list. HasNeedsBefore (instances_of list)) }
    ensures last { IfOk result (λ list. EndsIn root (instances_of list)) }
    ensures table { IfOk result (λ list. HasExactTable list) }
{
    let given = Given {
        steps: trace.steps.as_slice(),
        rows: graph.parents.as_slice(),
        verdicts: verdicts.list.as_slice(),
    };
    let state = visited(alloc, &given, root, limit)?;
    let _count = state.table.len();
    if let Some(step) = first_wide(&state.table, state.rows.as_slice()) {
        return Err(PullFault::OverWide { step });
    }
    Ok(list_of(state))
}

/// The list, without what is looked up.
fn list_of(state: State) -> Instances
    requires { AreRowsBelow state.table state.rows.items }
    ensures table { result.table ≡ state.table }
    ensures rows { result.rows ≡ state.rows.items }
{
    let State {
        table,
        names: _,
        rows,
        literals: _,
    } = state;
    Instances {
        table,
        rows: Seq::from_vec(rows),
    }
}
