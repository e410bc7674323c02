//! From the open nodes on the stack to a cycle of the graph.

ghost use Rattle.std.specs.Prelude.{◌≡◌, ◌<◌, ◌≤◌, ℕ, length, slice_index, IfOk};
ghost use Rattle.gs_levels.specs.Cycle.{IsBackwards, back};

use std::alloc::{AllocError, Global};

/// The place of the least number.
fn place_of_least(nodes: &[u32]) -> usize
    requires { 0 < length nodes.now }
    ensures inside { result < length nodes.now }
    ensures least { (k : ℕ) → k < length nodes.now → slice_index nodes.now result ≤ slice_index nodes.now k }
{
    let mut least = 0;
    for place in 0..nodes.len() {
        if nodes[place] < nodes[least] {
            least = place;
        }
    }
    least
}

/// The place that is so many steps back from a place on a ring of places.
fn place_back(from: usize, places: usize, steps: usize) -> usize
    requires from { from < places }
    requires steps { steps < places }
    ensures value { result ≡ back from places steps }
    ensures inside { result < places }
{
    if steps <= from {
        from - steps
    } else {
        places - (steps - from)
    }
}

/// The nodes from the least one on, backwards, and from the first one on with the last.
pub fn backwards_from_least(alloc: Global, nodes: &[u32]) -> Result<Vec<u32>, AllocError>
    requires { 0 < length nodes.now }
    ensures length { IfOk result (λ v. length v.items ≡ length nodes.now) }
    ensures nodes { IfOk result (λ v. IsBackwards nodes.now v.items) }
{
    let least = place_of_least(nodes);
    let mut cycle = Vec::with_capacity(alloc, nodes.len())?;
    for steps in 0..nodes.len() {
        cycle.push(nodes[place_back(least, nodes.len(), steps)])?;
    }
    Ok(cycle)
}
