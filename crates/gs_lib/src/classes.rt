//! Classes of cells that may take each other's place.

ghost use Rattle.std.specs.Prelude.{ℕ, ◌≡◌, ◌<◌, ◌≤◌, ◌+◌, ◌^◌, ◌++◌, ◌∷◌, [], false, cond, nat_lt, None, Some, IfOk, IfErr, length, map, set, slice_index_or, unwrap_or};
ghost use Rattle.std.specs.BTreeMap.{get, is_at};
ghost use Rattle.std.specs.List.{flat_map};
ghost use Rattle.gs_design.specs.Cell.{pin_name};
ghost use Rattle.gs_lib.specs.Classes.{Key, class_key, coded, group_of, has_key, key_cmp};
ghost use Rattle.gs_lib.specs.Draft.{cell_lists};
ghost use Rattle.gs_lib.specs.Library.{has_large_class};
ghost use Rattle.gs_lib.specs.declared.error.LibErr.{LibErr};

use crate::error::LibErr;
use gs_design::{Cell, CellKind, CellPin};
use gs_text::Name;
use std::alloc::Global;
use std::collections::BTreeMap;

/// How many cells may take each other's place.
const MOST: u32 = 1024;

/// How many groups footprints are counted in.
const GROUPS: usize = 4096;

/// Puts a name last as bytes from which its end can be told.
fn push_coded(name: &[u8], code: &mut Vec<u8>) -> Result<(), LibErr>
    ensures ok { IfOk result (λ _. code.new.items ≡ code.old.items ++ coded name.now) }
    ensures err { IfErr result (λ e. e ≡ LibErr.Mem) }
{
    for byte in name {
        code.push(1)?;
        code.push(*byte)?;
    }
    code.push(0)?;
    Ok(())
}

/// Puts the names of pins last.
fn push_pins(pins: &[CellPin], code: &mut Vec<u8>) -> Result<(), LibErr>
    ensures ok { IfOk result (λ _. code.new.items ≡ code.old.items ++ flat_map coded (map pin_name pins.now)) }
    ensures err { IfErr result (λ e. e ≡ LibErr.Mem) }
{
    for pin in pins {
        push_coded(pin.name.as_bytes(), code)?;
    }
    Ok(())
}

/// A cell's footprint and the names of its pins.
fn names_of(alloc: Global, cell: &Cell) -> Result<Name, LibErr>
    ensures ok { IfOk result (λ n. n ≡ flat_map coded (cell.now.footprint ∷ map pin_name cell.now.pins)) }
    ensures err { IfErr result (λ e. e ≡ LibErr.Mem) }
{
    let mut code = Vec::new(alloc);
    push_coded(cell.footprint.as_bytes(), &mut code)?;
    push_pins(cell.pins.as_slice(), &mut code)?;
    let names = Name::copy_of(alloc, code.as_slice())?;
    Ok(names)
}

/// The key of an unmarked gate.
fn class_key(alloc: Global, cell: &Cell) -> Result<Option<(u64, Name)>, LibErr>
    ensures ok { IfOk result (λ k. k ≡ class_key (cell_lists cell.now)) }
    ensures err { IfErr result (λ e. e ≡ LibErr.Mem) }
{
    if cell.marked {
        return Ok(None);
    }
    match cell.kind {
        CellKind::Gate { truth } => {
            let names = names_of(alloc, cell)?;
            Ok(Some((truth, names)))
        }
        CellKind::Flop => Ok(None),
    }
}

/// Counts a key, and answers how often it came.
fn count_key<K: Ord + Drop>(counts: &mut BTreeMap<K, u32>, key: K) -> Result<u32, LibErr>
    requires { (q : K) → unwrap_or (get K.cmp counts.old q) 0 ≤ 1024 }
    ensures count { IfOk result (λ n. n ≡ unwrap_or (get K.cmp counts.old key) 0 + 1) }
    ensures updates { IfOk result (λ n. (q : K) → get K.cmp counts.new q ≡ cond (is_at (K.cmp key) q) (Some n) (get K.cmp counts.old q)) }
    ensures err { IfErr result (λ e. e ≡ LibErr.Mem) }
{
    let count = match counts.get(&key) {
        Some(count) => *count + 1,
        None => 1,
    };
    counts.insert(key, count)?;
    Ok(count)
}

/// Counts a cell by its key, and answers how many of that key there are; 0 where it has none.
fn count_cell(
    alloc: Global,
    counts: &mut BTreeMap<(u64, Name), u32>,
    cell: &Cell,
) -> Result<u32, LibErr>
    requires { (q : Key) → unwrap_or (get key_cmp counts.old q) 0 ≤ 1024 }
    ensures counted { IfOk result (λ n. (q : Key) → unwrap_or (get key_cmp counts.new q) 0 ≡ unwrap_or (get key_cmp counts.old q) 0 + cond (has_key q (cell_lists cell.now)) 1 0) }
    ensures count { IfOk result (λ n. (k : Key) → class_key (cell_lists cell.now) ≡ Some k → n ≡ unwrap_or (get key_cmp counts.new k) 0) }
    ensures none { IfOk result (λ n. class_key (cell_lists cell.now) ≡ None → n ≡ 0) }
    ensures err { IfErr result (λ e. e ≡ LibErr.Mem) }
{
    let found = class_key(alloc, cell)?;
    match found {
        None => Ok(0),
        Some(key) => {
            let count = count_key(counts, key)?;
            Ok(count)
        }
    }
}

/// The same as `has_large_class`, by the keys of all cells.
fn has_large_key(alloc: Global, cells: &[Cell]) -> Result<bool, LibErr>
    ensures ok { IfOk result (λ b. b ≡ has_large_class (map cell_lists cells.now)) }
    ensures err { IfErr result (λ e. e ≡ LibErr.Mem) }
{
    let mut counts = BTreeMap::new(alloc);
    for cell in cells {
        let count = count_cell(alloc, &mut counts, cell)?;
        if count > MOST {
            return Ok(true);
        }
    }
    Ok(false)
}

/// The group of a footprint, of so many groups.
fn group_of(groups: usize, footprint: &[u8]) -> usize
    requires some { 0 < groups }
    requires few { groups ≤ 2 ^ 32 }
    ensures value { result ≡ group_of groups footprint.now }
    ensures below { result < groups }
{
    let mut group = 0;
    for byte in footprint {
        group = (group * 31 + usize::from(*byte)) % groups;
    }
    group
}

/// Zeros, one for each group.
fn zeros(alloc: Global, groups: usize) -> Result<Vec<u32>, LibErr>
    ensures length { IfOk result (λ v. length v.items ≡ groups) }
    ensures zeros { IfOk result (λ v. (h : ℕ) → slice_index_or v.items h 0 ≡ 0) }
    ensures err { IfErr result (λ e. e ≡ LibErr.Mem) }
{
    let counts = vec![in alloc; 0u32; groups]?;
    Ok(counts)
}

/// Counts a footprint, and answers how many of its group there are.
fn count_group(counts: &mut Vec<u32>, footprint: &[u8]) -> u32
    requires some { 0 < length counts.old.items }
    requires few { length counts.old.items ≤ 2 ^ 32 }
    requires small { (h : ℕ) → slice_index_or counts.old.items h 0 ≤ 1024 }
    ensures counts { counts.new.items ≡ set counts.old.items (group_of (length counts.old.items) footprint.now) result }
    ensures count { result ≡ slice_index_or counts.old.items (group_of (length counts.old.items) footprint.now) 0 + 1 }
{
    let group = group_of(counts.len(), footprint);
    let count = counts[group] + 1;
    counts[group] = count;
    count
}

/// Whether a group of footprints has more cells than 1,024. Cells that may take each other's place have one footprint, so where none
/// has, no more than 1,024 may.
fn has_large_group(alloc: Global, groups: usize, cells: &[Cell]) -> Result<bool, LibErr>
    requires some { 0 < groups }
    requires few { groups ≤ 2 ^ 32 }
    ensures ok { IfOk result (λ b. b ≡ false → has_large_class (map cell_lists cells.now) ≡ false) }
    ensures err { IfErr result (λ e. e ≡ LibErr.Mem) }
{
    let mut counts = zeros(alloc, groups)?;
    for cell in cells {
        let count = count_group(&mut counts, cell.footprint.as_bytes());
        if count > MOST {
            return Ok(true);
        }
    }
    Ok(false)
}

/// Whether more cells than 1,024 may take each other's place. Keys are made only where many cells have one footprint.
pub fn has_large_class(alloc: Global, cells: &[Cell]) -> Result<bool, LibErr>
    ensures ok { IfOk result (λ b. b ≡ has_large_class (map cell_lists cells.now)) }
    ensures err { IfErr result (λ e. e ≡ LibErr.Mem) }
{
    let may_be = has_large_group(alloc, GROUPS, cells)?;
    if may_be {
        return has_large_key(alloc, cells);
    }
    Ok(false)
}
