//! The search against the edges, from each node back to those that lead to it. The nodes that are open stand on a stack,
//! each waiting for the next, so an edge from an open node closes a cycle.

ghost use Rattle.std.specs.Prelude.{◌≡◌, ◌<◌, ◌+◌, ◌^◌, ◌-◌, ◌++◌, ◌∷◌, [], length, take, max, true, false, slice_index, slice_set, IfOk, OnOk, IfSome};
ghost use Rattle.gs_levels.specs.Graph.{IsWithin, HasEdge, edge_at};
ghost use Rattle.gs_levels.specs.Incoming.{IsIncoming};
ghost use Rattle.gs_levels.specs.Progress.{progress_at, is_fresh};
ghost use Rattle.gs_levels.specs.Search.{IsSearch, IsNext, ComesTo, Closes, StaysBegun, AreBegun, has, work};

use crate::edges::Edge;
use crate::incoming::{Incoming, edge_of};
use crate::progress::Progress;
use std::alloc::{AllocError, Global};

/// How far the search has come.
#[derive(Drop)]
pub struct Search {
    pub progress: Vec<Progress>,
    /// Of each node: its level as far as the edges that were followed decide it.
    pub level: Vec<u32>,
    /// The open nodes, each waiting for the next.
    pub stack: Vec<u32>,
}

/// What a step of the search came to.
#[derive(Clone, Copy)]
pub enum Step {
    Onward,
    /// The node at this place of the stack has an edge to the last one.
    Closes { place: usize },
}

impl Search {
    /// How far the search has come with a node.
    fn progress_of(&self, node: u32) -> Progress
        requires { node < length self.now.progress.items }
        ensures { result ≡ progress_at self.now.progress.items node }
    {
        self.progress[node as usize]
    }

    /// Begins with a node, whose edges are all ahead.
    fn begin(&mut self, incoming: &Incoming, node: u32) -> Result<(), AllocError>
        requires node { node < length self.old.progress.items }
        requires all { node < length incoming.now.all.items }
        ensures progress { OnOk result (self.new.progress.items ≡ slice_set self.old.progress.items node (Progress.Open (slice_index incoming.now.all.items node))) }
        ensures level { self.new.level.items ≡ self.old.level.items }
        ensures stack { OnOk result (self.new.stack.items ≡ self.old.stack.items ++ node ∷ []) }
    {
        self.stack.push(node)?;
        self.progress[node as usize] = Progress::Open {
            left: incoming.all_into(node),
        };
        Ok(())
    }

    /// Ends with the last node of the stack.
    fn finish(&mut self, node: u32)
        requires node { node < length self.old.progress.items }
        requires some { 0 < length self.old.stack.items }
        ensures progress { self.new.progress.items ≡ slice_set self.old.progress.items node Progress.Done }
        ensures level { self.new.level.items ≡ self.old.level.items }
        ensures stack { self.new.stack.items ≡ take (length self.old.stack.items - 1) self.old.stack.items }
    {
        self.progress[node as usize] = Progress::Done;
        self.stack.truncate(self.stack.len() - 1);
    }

    /// Follows the edge into a node from a node that is done.
    fn follow(&mut self, node: u32, left: usize, below: u32)
        requires node { node < length self.old.progress.items }
        requires level { node < length self.old.level.items }
        requires below { below < length self.old.level.items }
        requires room { slice_index self.old.level.items below + 1 < 2 ^ 32 }
        ensures progress { self.new.progress.items ≡ slice_set self.old.progress.items node (Progress.Open left) }
        ensures level { self.new.level.items ≡ slice_set self.old.level.items node (max (slice_index self.old.level.items node) (slice_index self.old.level.items below + 1)) }
        ensures stack { self.new.stack.items ≡ self.old.stack.items }
    {
        let level = self.level[node as usize].max(self.level[below as usize] + 1);
        self.level[node as usize] = level;
        self.progress[node as usize] = Progress::Open { left };
    }

    /// The last node of the stack.
    fn last(&self) -> u32
        requires { 0 < length self.now.stack.items }
        ensures { result ≡ slice_index self.now.stack.items (length self.now.stack.items - 1) }
    {
        self.stack[self.stack.len() - 1]
    }

    /// The place of a node on the stack.
    fn place_of(&self, node: u32) -> usize
        requires { has self.now.stack.items node ≡ true }
        ensures inside { result < length self.now.stack.items }
        ensures here { slice_index self.now.stack.items result ≡ node }
    {
        let mut place = 0;
        while place < self.stack.len() {
            if self.stack[place] == node {
                return place;
            }
            place += 1;
        }
        unreachable!()
    }

    /// Looks at the edge at this place, which leads into the last node of the stack.
    fn look_at(
        &mut self,
        nodes: u32,
        edges: &[Edge],
        incoming: &Incoming,
        place: usize,
    ) -> Result<Step, AllocError>
        requires within { IsWithin nodes edges.now }
        requires incoming { IsIncoming nodes edges.now incoming.now.all.items incoming.now.before.items }
        requires search { IsSearch nodes edges.now self.old.progress.items self.old.level.items self.old.stack.items }
        requires some { 0 < length self.old.stack.items }
        requires edge { IsNext edges.now self.old.progress.items self.old.stack.items place }
        ensures kept { OnOk result (IsSearch nodes edges.now self.new.progress.items self.new.level.items self.new.stack.items) }
        ensures begun { OnOk result (StaysBegun self.old.progress.items self.new.progress.items) }
        ensures onward { result ≡ Ok Step.Onward → work (length edges.now) self.new.progress.items < work (length edges.now) self.old.progress.items }
        ensures closes { IfOk result (λ s. ComesTo edges.now self.new.stack.items s) }
    {
        let node = self.last();
        let edge = edge_of(edges, place);
        match self.progress_of(edge.from) {
            Progress::Fresh => {
                self.begin(incoming, edge.from)?;
                Ok(Step::Onward)
            }
            Progress::Open { left: _ } => Ok(Step::Closes {
                place: self.place_of(edge.from),
            }),
            Progress::Done => {
                self.follow(node, incoming.before_edge(place), edge.from);
                Ok(Step::Onward)
            }
        }
    }

    /// One step with the last node of the stack: its next edge is followed or waited for, or the node is done.
    fn step(&mut self, nodes: u32, edges: &[Edge], incoming: &Incoming) -> Result<Step, AllocError>
        requires within { IsWithin nodes edges.now }
        requires incoming { IsIncoming nodes edges.now incoming.now.all.items incoming.now.before.items }
        requires search { IsSearch nodes edges.now self.old.progress.items self.old.level.items self.old.stack.items }
        requires some { 0 < length self.old.stack.items }
        ensures kept { OnOk result (IsSearch nodes edges.now self.new.progress.items self.new.level.items self.new.stack.items) }
        ensures begun { OnOk result (StaysBegun self.old.progress.items self.new.progress.items) }
        ensures onward { result ≡ Ok Step.Onward → work (length edges.now) self.new.progress.items < work (length edges.now) self.old.progress.items }
        ensures closes { IfOk result (λ s. ComesTo edges.now self.new.stack.items s) }
    {
        let node = self.last();
        match self.progress_of(node) {
            Progress::Open { left } => {
                if left > 0 {
                    self.look_at(nodes, edges, incoming, left - 1)
                } else {
                    self.finish(node);
                    Ok(Step::Onward)
                }
            }
            Progress::Fresh | Progress::Done => unreachable!(),
        }
    }

    /// Follows the edges back from a node that is fresh, until all nodes that were begun are done, or to a cycle: then the
    /// place on the stack of a node with an edge to the last one.
    fn run_from(
        &mut self,
        nodes: u32,
        edges: &[Edge],
        incoming: &Incoming,
        root: u32,
    ) -> Result<Option<usize>, AllocError>
        requires within { IsWithin nodes edges.now }
        requires incoming { IsIncoming nodes edges.now incoming.now.all.items incoming.now.before.items }
        requires search { IsSearch nodes edges.now self.old.progress.items self.old.level.items self.old.stack.items }
        requires none { length self.old.stack.items ≡ 0 }
        requires root { root < nodes }
        requires fresh { is_fresh (progress_at self.old.progress.items root) ≡ true }
        ensures kept { OnOk result (IsSearch nodes edges.now self.new.progress.items self.new.level.items self.new.stack.items) }
        ensures begun { OnOk result (StaysBegun self.old.progress.items self.new.progress.items) }
        ensures root { OnOk result (is_fresh (progress_at self.new.progress.items root) ≡ false) }
        ensures ends { IfOk result (λ o. o ≡ None → length self.new.stack.items ≡ 0) }
        ensures closes { IfOk result (λ o. IfSome o (λ place. Closes edges.now self.new.stack.items place)) }
    {
        self.begin(incoming, root)?;
        while self.stack.len() > 0 {
            match self.step(nodes, edges, incoming)? {
                Step::Onward => {}
                Step::Closes { place } => return Ok(Some(place)),
            }
        }
        Ok(None)
    }

    /// Whether a node is fresh.
    fn is_fresh(&self, node: u32) -> bool
        requires { node < length self.now.progress.items }
        ensures { result ≡ is_fresh (progress_at self.now.progress.items node) }
    {
        match self.progress_of(node) {
            Progress::Fresh => true,
            Progress::Open { left: _ } => false,
            Progress::Done => false,
        }
    }

    /// A search that has begun with no node.
    pub fn new(alloc: Global, nodes: u32, edges: &[Edge]) -> Result<Search, AllocError>
        ensures kept { IfOk result (λ s. IsSearch nodes edges.now s.progress.items s.level.items s.stack.items) }
        ensures none { IfOk result (λ s. length s.stack.items ≡ 0) }
    {
        let progress = vec![in alloc; Progress::Fresh; nodes as usize]?;
        let level = vec![in alloc; 0u32; nodes as usize]?;
        Ok(Search {
            progress,
            level,
            stack: Vec::new(alloc),
        })
    }

    /// Searches from every node: either each is done, or there is a cycle, and the place on the stack of a node with an edge
    /// to the last one.
    pub fn run(
        &mut self,
        nodes: u32,
        edges: &[Edge],
        incoming: &Incoming,
    ) -> Result<Option<usize>, AllocError>
        requires within { IsWithin nodes edges.now }
        requires incoming { IsIncoming nodes edges.now incoming.now.all.items incoming.now.before.items }
        requires search { IsSearch nodes edges.now self.old.progress.items self.old.level.items self.old.stack.items }
        requires none { length self.old.stack.items ≡ 0 }
        ensures kept { OnOk result (IsSearch nodes edges.now self.new.progress.items self.new.level.items self.new.stack.items) }
        ensures ends { IfOk result (λ o. o ≡ None → (length self.new.stack.items ≡ 0) × AreBegun nodes self.new.progress.items) }
        ensures closes { IfOk result (λ o. IfSome o (λ place. Closes edges.now self.new.stack.items place)) }
    {
        for root in 0..nodes {
            if !self.is_fresh(root) {
                continue;
            }
            let found = self.run_from(nodes, edges, incoming, root)?;
            if let Some(place) = found {
                return Ok(Some(place));
            }
        }
        Ok(None)
    }
}
