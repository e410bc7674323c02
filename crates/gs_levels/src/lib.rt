//! The levels of a directed graph, or a cycle of it.
//!
//! A node without an incoming edge has level 0, and every other node has one more than the greatest level of a node with
//! an edge to it. A graph has levels exactly where it has no cycle, so [`levels`] answers one or the other: the levels,
//! with the nodes in the order of their levels, or a cycle that is really in the graph.
//!
//! It is how a netlist's combinational gates are put into an order in which each comes after the gates that drive it, and
//! how a combinational loop is found.
//!
//! Time is linear in nodes and edges, but for one sort of the nodes. Memory: about 40 bytes a node and 8 bytes an edge.
//! Nothing recurses, so the depth of a graph costs no stack.
//!
//! - `graph`: the graph and its edges. - `incoming`: the edges into each node. - `search`: the search against the edges.
//! - `cycle`: from the nodes on the stack to a cycle. - `order`: the nodes by level. - `law`: what holds of every graph,
//!   whatever a call answers. What the answers mean stands in `specs/Graph.antt` and `specs/Levels.antt`.
#![tactic(auto)]

mod cycle;
mod edges;
mod find;
mod graph;
mod incoming;
mod law;
mod order;
mod progress;
mod search;

pub use find::{LevelErr, Leveled, levels};
pub use graph::{Edge, Graph, Numbers, Pairs};
pub use law::each_graph_is_decided;

#[cfg(test)]
mod tests;
