//! A directed graph as a list of edges.

use gs_list::Rows;

/// An edge from one node to another. Nodes are numbered from 0.
#[derive(Clone, Copy, Debug, PartialEq, Eq)]
pub struct Edge {
    pub from: u32,
    pub to: u32,
}

/// A list of edges.
pub type Pairs = Rows<Edge>;

/// A list of numbers, as levels or nodes.
pub type Numbers = Rows<u32>;
