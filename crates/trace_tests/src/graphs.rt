ghost use Rattle.std.specs.Prelude.{IsTrue};
ghost use Rattle.derivation_graph.specs.Graphs.{AreDistinct, names_of};

use derivation_graph::{Graph, GraphFault, Node, graph_of, order, root, root_by_marks};
use dk_syntax::{Formula, Name, NoMemory, Seq};
use std::alloc::Global;
use std::test::Fail;

type Row<'a> = (&'a [u8], &'a [&'a [u8]]);

fn name(alloc: Global, bytes: &[u8]) -> Result<Name, NoMemory> {
    Ok(Name::new(Vec::from_slice(alloc, bytes)?))
}

fn nodes_of(alloc: Global, table: &[Row]) -> Result<Seq<Node>, NoMemory> {
    let mut nodes = Vec::new(alloc);
    for row in table {
        let mut parents = Vec::new(alloc);
        for parent in row.1 {
            parents.push(name(alloc, parent)?)?;
        }
        nodes.push(Node {
            name: name(alloc, row.0)?,
            parents: Seq::from_vec(parents),
        })?;
    }
    Ok(Seq::from_vec(nodes))
}

/// Whether no two nodes have one name.
fn are_distinct(nodes: &[Node]) -> bool
    ensures { IsTrue result → AreDistinct (names_of nodes.now) }
{
    for k in 0..nodes.len() {
        for j in 0..k {
            if nodes[j].name.same(&nodes[k].name) {
                return false;
            }
        }
    }
    true
}

fn have_distinct_names(nodes: &Seq<Node>) -> bool
    ensures { IsTrue result → AreDistinct (names_of nodes.now) }
{
    are_distinct(nodes.as_slice())
}

fn row(graph: &Graph, place: usize) -> &[u32] {
    match graph.parents.as_slice().get(place) {
        Some(row) => row.as_slice(),
        None => &[],
    }
}

#[test]
fn parents_may_stand_later(rt: HostRuntime) -> Result<(), Fail> {
    let alloc = rt.alloc();
    let nodes = nodes_of(
        alloc,
        &[(b"c", &[b"a1", b"a2"]), (b"a2", &[]), (b"a1", &[])],
    )?;
    assert!(rt; have_distinct_names(&nodes));
    let graph = graph_of(alloc, &nodes)?;
    assert_eq!(rt; row(&graph, 0), [3, 2].as_slice());
    assert_eq!(rt; graph.parents.len(), 3);
    let list = order(alloc, &graph)?;
    assert_eq!(rt; list.as_slice(), [2, 3, 1].as_slice());
    Ok(())
}

#[test]
fn a_parent_may_stand_twice(rt: HostRuntime) -> Result<(), Fail> {
    let alloc = rt.alloc();
    let nodes = nodes_of(alloc, &[(b"b", &[b"a", b"a"]), (b"a", &[])])?;
    assert!(rt; have_distinct_names(&nodes));
    let graph = graph_of(alloc, &nodes)?;
    assert_eq!(rt; row(&graph, 0), [2, 2].as_slice());
    let list = order(alloc, &graph)?;
    assert_eq!(rt; list.as_slice(), [2, 1].as_slice());
    Ok(())
}

#[test]
fn a_missing_parent_comes_before_a_cycle(rt: HostRuntime) -> Result<(), Fail> {
    let alloc = rt.alloc();
    let nodes = nodes_of(
        alloc,
        &[
            (b"a", &[b"b"]),
            (b"b", &[b"a"]),
            (b"c", &[b"a", b"zz", b"yy"]),
        ],
    )?;
    assert!(rt; have_distinct_names(&nodes));
    let Err(GraphFault::MissingParent { step, name }) = graph_of(alloc, &nodes) else {
        panic!(rt; "no parent is missing")
    };
    assert_eq!(rt; step, 3);
    assert_eq!(rt; name.as_bytes(), b"zz".as_slice());
    Ok(())
}

#[test]
fn the_least_step_on_a_cycle_is_named(rt: HostRuntime) -> Result<(), Fail> {
    let alloc = rt.alloc();
    let nodes = nodes_of(
        alloc,
        &[
            (b"above", &[b"x"]),
            (b"z", &[b"z"]),
            (b"y", &[b"x"]),
            (b"x", &[b"y"]),
        ],
    )?;
    assert!(rt; have_distinct_names(&nodes));
    let Err(GraphFault::Cycle { step }) = graph_of(alloc, &nodes) else {
        panic!(rt; "there is no cycle")
    };
    assert_eq!(rt; step, 2);
    Ok(())
}

/// Nodes each of which has the next for its parent, and the last of which has the first or none.
fn chain(alloc: Global, count: u16, closed: bool) -> Result<Seq<Node>, NoMemory> {
    let mut nodes = Vec::new(alloc);
    for number in 0..count {
        let mut parents = Vec::new(alloc);
        if number + 1 < count {
            parents.push(name(alloc, &(number + 1).to_be_bytes())?)?;
        } else if closed {
            parents.push(name(alloc, &[0, 0])?)?;
        }
        nodes.push(Node {
            name: name(alloc, &number.to_be_bytes())?,
            parents: Seq::from_vec(parents),
        })?;
    }
    Ok(Seq::from_vec(nodes))
}

#[test]
fn a_long_chain_has_an_order(rt: HostRuntime) -> Result<(), Fail> {
    let alloc = rt.alloc();
    let nodes = chain(alloc, 2000, false)?;
    assert!(rt; have_distinct_names(&nodes));
    let graph = graph_of(alloc, &nodes)?;
    let list = order(alloc, &graph)?;
    assert_eq!(rt; list.as_slice().first().copied(), Some(2000));
    assert_eq!(rt; list.as_slice().last().copied(), Some(1));
    Ok(())
}

#[test]
fn a_long_chain_may_be_a_cycle(rt: HostRuntime) -> Result<(), Fail> {
    let alloc = rt.alloc();
    let nodes = chain(alloc, 2000, true)?;
    assert!(rt; have_distinct_names(&nodes));
    let Err(GraphFault::Cycle { step }) = graph_of(alloc, &nodes) else {
        panic!(rt; "there is no cycle")
    };
    assert_eq!(rt; step, 1);
    Ok(())
}

#[test]
fn the_root_is_not_barred(rt: HostRuntime) -> Result<(), Fail> {
    let alloc = rt.alloc();
    let formulas = vec![in alloc; Formula::True, Formula::False, Formula::False]?;
    let barred = vec![in alloc; false, true, false]?;
    let formulas = Seq::from_vec(formulas);
    assert!(rt; formulas.len() == 3);
    let barred = Seq::from_vec(barred);
    assert_eq!(rt; root(&formulas, &barred), Some(3));
    let marks = Seq::from_vec(vec![in alloc; false, true, true]?);
    assert!(rt; marks.len() == 3);
    assert_eq!(rt; root_by_marks(&marks, &barred), Some(3));
    Ok(())
}
