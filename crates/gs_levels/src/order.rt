//! The nodes in the order of their levels.

ghost use Rattle.std.specs.Prelude.{◌≡◌, ◌<◌, ◌^◌, IfOk, length, map};
ghost use Rattle.std.specs.List.{range_with_len};
ghost use Rattle.gs_levels.specs.Levels.{IsOrder};
ghost use Rattle.gs_levels.specs.Order.{placed_at};

use std::alloc::{AllocError, Global};

/// A node with its level, in the order that the nodes are put into.
#[derive(Clone, Copy, Debug, PartialEq, Eq, PartialOrd, Ord)]
struct Placed {
    level: u32,
    node: u32,
}

/// Each node with its level, by number.
fn all_placed(alloc: Global, level: &[u32]) -> Result<Vec<Placed>, AllocError>
    requires { length level.now < 2 ^ 32 }
    ensures { IfOk result (λ v. v.items ≡ map (placed_at level.now) (range_with_len 0 (length level.now))) }
{
    let mut all = Vec::with_capacity(alloc, level.len())?;
    for node in 0..level.len() {
        all.push(Placed {
            level: level[node],
            node: node as u32,
        })?;
    }
    Ok(all)
}

/// The nodes by level, and then by number.
pub fn in_order(alloc: Global, level: &[u32]) -> Result<Vec<u32>, AllocError>
    requires { length level.now < 2 ^ 32 }
    ensures { IfOk result (λ v. IsOrder level.now v.items) }
{
    let mut all = all_placed(alloc, level)?;
    all.sort()?;
    let mut order = Vec::with_capacity(alloc, level.len())?;
    for place in &all {
        order.push(place.node)?;
    }
    Ok(order)
}
