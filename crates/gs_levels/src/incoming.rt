//! The edges into each node, found without copying an edge.

ghost use Rattle.std.specs.Prelude.{◌≡◌, ◌<◌, length, slice_index, slice_index_or, slice_set, IfOk};
ghost use Rattle.gs_levels.specs.Graph.{IsWithin, edge_at};
ghost use Rattle.gs_levels.specs.Incoming.{IsIncoming};

use crate::edges::Edge;
use std::alloc::{AllocError, Global};

/// The edges into each node as fronts of the list of edges.
#[derive(Drop)]
pub struct Incoming {
    /// Of each node: how long the shortest front of the edges is that has all edges into it.
    pub all: Vec<usize>,
    /// Of each edge: how long the shortest front of the edges before it is that has all of those into the same node.
    pub before: Vec<usize>,
}

/// The edge at a place.
pub fn edge_of(edges: &[Edge], place: usize) -> Edge
    requires { place < length edges.now }
    ensures { result ≡ edge_at edges.now place }
{
    edges[place]
}

impl Incoming {
    /// How long the shortest front of the edges is that has all edges into a node.
    pub fn all_into(&self, node: u32) -> usize
        requires { node < length self.now.all.items }
        ensures { result ≡ slice_index self.now.all.items node }
    {
        self.all[node as usize]
    }

    /// How long the shortest front of the edges before one at this place is that has all of those into the same node.
    pub fn before_edge(&self, place: usize) -> usize
        requires { place < length self.now.before.items }
        ensures { result ≡ slice_index self.now.before.items place }
    {
        self.before[place]
    }
}

/// Finds the edges into each node, in one pass.
pub fn find_incoming(alloc: Global, nodes: u32, edges: &[Edge]) -> Result<Incoming, AllocError>
    requires { IsWithin nodes edges.now }
    ensures { IfOk result (λ r. IsIncoming nodes edges.now r.all.items r.before.items) }
{
    let mut all = vec![in alloc; 0usize; nodes as usize]?;
    let mut before = Vec::with_capacity(alloc, edges.len())?;
    for place in 0..edges.len() {
        let node = edge_of(edges, place).to as usize;
        before.push(all[node])?;
        all[node] = place + 1;
    }
    Ok(Incoming { all, before })
}
