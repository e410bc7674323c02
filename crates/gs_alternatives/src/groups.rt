//! The list of each class.
#![tactic(auto)]

ghost use Rattle.std.specs.Prelude.{◌≡◌, ◌<◌, ◌≤◌, All, IfOk, length, map, slice_index};
ghost use Rattle.gs_list.specs.Groups.{by_key_of};

use gs_design::{CellId, CellIds, Numbers};
use gs_list::Grouped;
use std::alloc::{AllocError, Global};

// The class of each of these cells.
fn keys_of(alloc: Global, order: &CellIds, classes: &Numbers) -> Result<Numbers, AllocError>
    requires { All (λ c. c < length classes.now) order.now }
    ensures { IfOk result (λ v. v ≡ map (slice_index classes.now) order.now) }
{
    let mut keys = Vec::with_capacity(alloc, order.len())?;
    for cell in order.as_slice() {
        keys.push(*classes.at(cell.index()))?;
    }
    Ok(Numbers::from_vec(keys))
}

/// These cells by class, in order.
pub fn groups_of(
    alloc: Global,
    order: &CellIds,
    classes: &Numbers,
) -> Result<Grouped<CellId>, AllocError>
    requires inside { All (λ c. c < length classes.now) order.now }
    requires below { All (λ k. k < length classes.now) classes.now }
    requires few_cells { length order.now ≤ 65535 }
    requires few { length classes.now ≤ 65535 }
    ensures { IfOk result (λ g. g ≡ by_key_of (length classes.now) (map (slice_index classes.now) order.now) order.now) }
{
    let keys = keys_of(alloc, order, classes)?;
    let groups = Grouped::by_key(
        alloc,
        order.as_slice(),
        keys.as_slice(),
        classes.len() as u32,
    )?;
    Ok(groups)
}
