//! Worked graphs, with their levels and cycles found by hand.

use super::*;
use std::alloc::{AllocError, Global};
use std::test::Fail;

/// The graph with these edges, which lead from and to nodes below the count.
fn graph(alloc: Global, nodes: u32, ends: &[(u32, u32)]) -> Result<Option<Graph>, AllocError> {
    let mut edges = Vec::new(alloc);
    for (from, to) in ends {
        edges.push(Edge {
            from: *from,
            to: *to,
        })?;
    }
    Ok(Graph::try_new(nodes, Pairs::from_vec(edges)))
}

#[test]
fn levels_of_a_chain_with_a_short_cut(rt: HostRuntime) -> Result<(), Fail> {
    let found = graph(rt.alloc(), 5, [(3, 1), (1, 0), (3, 0), (3, 1)].as_slice())?;
    let leveled = levels(rt.alloc(), &found.ok_or("edges within")?)?;
    assert_eq!(rt; leveled.level.as_slice(), [2, 1, 0, 0, 0].as_slice());
    assert_eq!(rt; leveled.order.as_slice(), [2, 3, 4, 1, 0].as_slice());
    Ok(())
}

/// The cycle that refuses a graph, if that is why it has no levels.
fn cycle_of(alloc: Global, graph: &Graph) -> Option<Vec<u32>> {
    match levels(alloc, graph) {
        Ok(_) => None,
        Err(LevelErr::Loop { cycle }) => Some(cycle.into_vec()),
        Err(LevelErr::Mem) => None,
    }
}

#[test]
fn a_cycle_begins_with_its_least_node(rt: HostRuntime) -> Result<(), Fail> {
    let found = graph(
        rt.alloc(),
        6,
        [(5, 4), (4, 2), (2, 5), (0, 5), (2, 1)].as_slice(),
    )?;
    let cycle = cycle_of(rt.alloc(), &found.ok_or("edges within")?).ok_or("a cycle")?;
    assert_eq!(rt; cycle.as_slice(), [2, 5, 4].as_slice());
    Ok(())
}

#[test]
fn a_node_with_an_edge_to_itself_is_a_cycle(rt: HostRuntime) -> Result<(), Fail> {
    let found = graph(rt.alloc(), 3, [(1, 1)].as_slice())?;
    let cycle = cycle_of(rt.alloc(), &found.ok_or("edges within")?).ok_or("a cycle")?;
    assert_eq!(rt; cycle.as_slice(), [1].as_slice());
    Ok(())
}

#[test]
fn a_graph_without_a_node_has_no_level(rt: HostRuntime) -> Result<(), Fail> {
    let found = graph(rt.alloc(), 0, [].as_slice())?;
    let leveled = levels(rt.alloc(), &found.ok_or("edges within")?)?;
    assert_eq!(rt; leveled.level.as_slice().len(), 0);
    assert_eq!(rt; leveled.order.into_vec().len(), 0);
    Ok(())
}
