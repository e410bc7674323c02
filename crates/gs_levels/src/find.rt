//! The call: levels, or a cycle.

ghost use Rattle.std.specs.Prelude.{IfOk, IfErr, OnOk, List, ℕ};
ghost use Rattle.gs_levels.specs.Levels.{IsLeveled, IsOrder, IsCycle};
ghost use Rattle.gs_levels.specs.Causes.{HasCause};

use crate::cycle::backwards_from_least;
use crate::graph::{Graph, Numbers};
use crate::incoming::find_incoming;
use crate::order::in_order;
use crate::search::Search;
use std::alloc::{AllocError, Global};

/// The levels of a graph without a cycle.
#[derive(Debug, Drop)]
pub struct Leveled {
    /// The level of each node, by its number.
    pub level: Numbers,
    /// Each node once, by level and then by number.
    pub order: Numbers,
}

/// Why a graph has no levels.
#[derive(Debug, Drop)]
pub enum LevelErr {
    /// It has a cycle: distinct nodes, the least first, each with an edge to the next and the last with an edge to the first.
    Loop { cycle: Numbers },
    /// Want of memory.
    Mem,
}

impl From<AllocError> for LevelErr {
    ghost use Rattle.std.specs.Prelude.{◌≡◌};
    ghost use Rattle.gs_levels.specs.declared.find.LevelErr.TheVariants.{Mem};

    ghost from_gives = { λ _ e. e ≡ Mem };

    fn from(_: AllocError) -> LevelErr {
        LevelErr::Mem
    }
}

/// The levels of a graph, with its nodes in their order, or a cycle.
///
/// There is a cycle exactly where `Loop` comes, unless memory runs out. Time is linear in nodes and edges, but for a sort of the nodes.
pub fn levels(alloc: Global, graph: &Graph) -> Result<Leveled, LevelErr>
    ensures leveled { IfOk result (λ l. IsLeveled graph.now.nodes graph.now.edges l.level) }
    ensures order { IfOk result (λ l. IsOrder l.level l.order) }
    // Levels are answered only where there is no cycle.
    ensures acyclic { OnOk result ((cycle : List ℕ) → IsCycle graph.now.edges cycle → ⊥) }
    ensures cycle { IfErr result (λ e. HasCause graph.now.edges e) }
{
    let edges = graph.edges.as_slice();
    let incoming = find_incoming(alloc, graph.nodes, edges)?;
    let mut search = Search::new(alloc, graph.nodes, edges)?;
    match search.run(graph.nodes, edges, &incoming)? {
        Some(place) => {
            let cycle = backwards_from_least(alloc, &search.stack[place..])?;
            Err(LevelErr::Loop {
                cycle: Numbers::from_vec(cycle),
            })
        }
        None => {
            let Search {
                progress: _,
                level,
                stack: _,
            } = search;
            let order = in_order(alloc, &level)?;
            Ok(Leveled {
                level: Numbers::from_vec(level),
                order: Numbers::from_vec(order),
            })
        }
    }
}
