//! The order of cells.
#![tactic(auto)]

ghost use Rattle.std.specs.Prelude.{◌≡◌, ◌≤◌, IfOk, length};
ghost use Rattle.std.specs.Map.{values_of};
ghost use Rattle.gs_design.specs.Alternatives.{ranked};

use gs_design::{CellId, CellIds, Cells};
use gs_text::Name;
use std::alloc::{AllocError, Global};
use std::collections::BTreeMap;

// The cells of a map, in its order.
fn values_of<K: Ord>(alloc: Global, map: &BTreeMap<K, CellId>) -> Result<CellIds, AllocError>
    ensures { IfOk result (λ v. v ≡ values_of map.now.entries) }
{
    let mut cells = Vec::new(alloc);
    for cell in map.values() {
        cells.push(*cell)?;
    }
    Ok(CellIds::from_vec(cells))
}

/// All cells by leakage, and then by name.
pub fn rank(alloc: Global, cells: &Cells) -> Result<CellIds, AllocError>
    requires { length cells.now ≤ 65535 }
    ensures { IfOk result (λ v. v ≡ ranked cells.now) }
{
    let mut map = BTreeMap::new(alloc);
    for number in 0..cells.len() as u32 {
        let cell = cells.at(number as usize);
        let name = Name::copy_of(alloc, cell.name.as_bytes())?;
        map.insert((cell.leakage, name), CellId(number))?;
    }
    let order = values_of(alloc, &map)?;
    Ok(order)
}
