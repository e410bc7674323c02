//! Classes of cells that may take each other's place.
#![tactic(auto)]

ghost use Rattle.std.specs.Prelude.{ℕ, ◌≡◌, ◌≤◌, ◌<◌, cond, None, Some, IfOk, length, unwrap_or};
ghost use Rattle.std.specs.BTreeMap.{get, is_at};
ghost use Rattle.gs_design.specs.Cells.{cell_at};
ghost use Rattle.gs_alternatives.specs.Classes.{AreClasses, Key, class_key, key_cmp};

use crate::key::class_key;
use gs_design::{Cell, Cells, Numbers};
use gs_text::Name;
use std::alloc::{AllocError, Global};
use std::collections::BTreeMap;

// The number that a key has in the map; it gets this number where it has none.
fn number_of<K: Ord + Drop>(
    numbers: &mut BTreeMap<K, u32>,
    key: K,
    number: u32,
) -> Result<u32, AllocError>
    ensures number { IfOk result (λ n. n ≡ unwrap_or (get K.cmp numbers.old key) number) }
    ensures updates { IfOk result (λ n. (q : K) → get K.cmp numbers.new q ≡ cond (is_at (K.cmp key) q) (Some n) (get K.cmp numbers.old q)) }
{
    let number = match numbers.get(&key) {
        Some(old) => *old,
        None => number,
    };
    numbers.insert(key, number)?;
    Ok(number)
}

// The class of a cell of this number, where the map has those of the cells before it.
fn class_of(
    alloc: Global,
    numbers: &mut BTreeMap<(u64, Name), u32>,
    cell: &Cell,
    number: u32,
) -> Result<u32, AllocError>
    ensures none { IfOk result (λ n. class_key cell.now ≡ None → n ≡ number) }
    ensures unchanged { IfOk result (λ n. class_key cell.now ≡ None → (q : Key) → get key_cmp numbers.new q ≡ get key_cmp numbers.old q) }
    ensures some { IfOk result (λ n. (k : Key) → class_key cell.now ≡ Some k → n ≡ unwrap_or (get key_cmp numbers.old k) number) }
    ensures updates { IfOk result (λ n. (k : Key) → class_key cell.now ≡ Some k → (q : Key) → get key_cmp numbers.new q ≡ cond (is_at (key_cmp k) q) (Some n) (get key_cmp numbers.old q)) }
{
    let found = class_key(alloc, cell)?;
    match found {
        None => Ok(number),
        Some(key) => {
            let class = number_of(numbers, key, number)?;
            Ok(class)
        }
    }
}

/// The class of each cell.
pub fn classes_of(alloc: Global, cells: &Cells) -> Result<Numbers, AllocError>
    requires { length cells.now ≤ 65535 }
    ensures { IfOk result (λ v. AreClasses cells.now v) }
{
    let mut numbers = BTreeMap::new(alloc);
    let mut classes = Vec::with_capacity(alloc, cells.len())?;
    for number in 0..cells.len() as u32 {
        let class = class_of(alloc, &mut numbers, cells.at(number as usize), number)?;
        classes.push(class)?;
    }
    Ok(Numbers::from_vec(classes))
}
