//! A directed graph.

ghost use Rattle.std.specs.Prelude.{◌≡◌, ◌↔◌, IsTrue, IfSome, IfNone};
ghost use Rattle.gs_levels.specs.Graph.{IsWithin};

pub use crate::edges::{Edge, Numbers, Pairs};

/// A directed graph. It may have an edge twice, and an edge from a node to itself.
#[derive(Drop)]
pub struct Graph {
    /// How many nodes there are. They are numbered from 0.
    pub nodes: u32,
    pub edges: Pairs,
    /// Both ends of each edge are nodes.
    pub ghost inside: { IsWithin nodes edges },
}

/// Whether both ends of each edge are below the count of nodes.
fn is_within(nodes: u32, edges: &[Edge]) -> bool
    ensures { IsTrue result ↔ IsWithin nodes edges.now }
{
    for edge in edges {
        if edge.from >= nodes || edge.to >= nodes {
            return false;
        }
    }
    true
}

impl Graph {
    /// The graph of these edges, or none where an edge has an end that is no node. It takes no memory.
    pub fn try_new(nodes: u32, edges: Pairs) -> Option<Graph>
        ensures graph { IfSome result (λ g. (g.nodes ≡ nodes) × (g.edges ≡ edges)) }
        ensures outside { IfNone result (IsWithin nodes edges → ⊥) }
    {
        if is_within(nodes, edges.as_slice()) {
            Some(Graph { nodes, edges })
        } else {
            None
        }
    }
}
