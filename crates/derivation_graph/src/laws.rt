//! Laws on graphs, roots and orders.
ghost use Rattle.std.specs.Prelude.{ℕ, List, Bool};
ghost use Rattle.dk_syntax.specs.declared.Formula.{Formula};
ghost use Rattle.derivation_graph.specs.Graphs.{HasNoCycle, HasStepsForParents};
ghost use Rattle.derivation_graph.specs.Laws.{HasOneGraph, HasOneRoot};
ghost use Rattle.derivation_graph.specs.Orders.{HasOrder};
ghost use Rattle.derivation_graph.specs.declared.graph.Node.{Node as Named};

/// Nodes have one graph or one fault, and the steps of a trace one root or none.
pub fn one_answer()
    ensures graph { (nodes : List Named) → HasOneGraph nodes }
    ensures root { (formulas : List Formula) (barred : List Bool) → HasOneRoot formulas barred }
{}

/// Where each parent is a step and there is no cycle, the steps have an order.
pub fn order_exists()
    ensures { (rows : List (List ℕ)) → HasNoCycle rows → HasStepsForParents rows → HasOrder rows }
{}
