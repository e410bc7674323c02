//! The lists of all classes, one after another.
#![tactic(auto)]

ghost use Rattle.std.specs.Prelude.{ℕ, ◌≡◌, ◌<◌, ◌≤◌, ◌+◌, ◌++◌, ◌∷◌, [], true, false, All, IfOk, List, length, slice_index, slice_index_or};
ghost use Rattle.gs_design.specs.Alternatives.{alternatives, is_sizable};
ghost use Rattle.gs_design.specs.Class.{AreAlternativesOf};
ghost use Rattle.gs_design.specs.Cells.{cell_at};
ghost use Rattle.gs_alternatives.specs.Choices.{AreChoices, AreShared, no_stretch, stretch_at};
ghost use Rattle.gs_alternatives.specs.Classes.{AreClasses, IsPut, has};

use crate::choices::{Alternatives, Stretch};
use gs_design::{Cell, CellId, CellKind, Cells, Numbers};
use gs_list::{Grouped, Rows};
use std::alloc::{AllocError, Global};

const NONE: Stretch = Stretch {
    from: 0,
    to: 0,
    first: 0,
};

fn is_sizable(cell: &Cell) -> bool
    ensures { result ≡ is_sizable cell.now }
{
    if cell.marked {
        return false;
    }
    match cell.kind {
        CellKind::Gate { .. } => true,
        CellKind::Flop => false,
    }
}

// Gives each cell of a group its stretch, where the group begins at a place among the choices.
fn put_stretches(group: &[CellId], base: u32, stretches: &mut Vec<Stretch>)
    requires few { base + length group.now < 4294967296 }
    requires inside { All (λ c. c < length stretches.old.items) group.now }
    ensures many { length stretches.new.items ≡ length stretches.old.items }
    ensures members { (c : ℕ) → has group.now c ≡ true → IsPut group.now base c (stretch_at stretches.new.items c) }
    ensures others { (c : ℕ) → has group.now c ≡ false → stretch_at stretches.new.items c ≡ stretch_at stretches.old.items c }
{
    let to = base + group.len() as u32;
    for place in 0..group.len() {
        stretches[group[place].index()] = Stretch {
            from: base,
            to,
            first: place as u32,
        };
    }
}

// Puts a group last.
fn put_group(
    group: &[CellId],
    choices: &mut Vec<CellId>,
    stretches: &mut Vec<Stretch>,
) -> Result<(), AllocError>
    requires few { length choices.old.items + length group.now < 4294967296 }
    requires inside { All (λ c. c < length stretches.old.items) group.now }
    ensures pushed { IfOk result (λ _. choices.new.items ≡ choices.old.items ++ group.now) }
    ensures many { IfOk result (λ _. length stretches.new.items ≡ length stretches.old.items) }
    ensures members { IfOk result (λ _. (c : ℕ) → has group.now c ≡ true → IsPut group.now (length choices.old.items) c (stretch_at stretches.new.items c)) }
    ensures others { IfOk result (λ _. (c : ℕ) → has group.now c ≡ false → stretch_at stretches.new.items c ≡ stretch_at stretches.old.items c) }
{
    let base = choices.len() as u32;
    choices.extend_from_slice(group)?;
    put_stretches(group, base, stretches);
    Ok(())
}

// The alternatives of the first cell of a class.
fn list_at<'a>(
    cells: &Cells,
    groups: &'a Grouped<CellId>,
    cell: u32,
    own: &'a [CellId],
) -> &'a [CellId]
    requires inside { cell < length cells.now }
    requires as_many { cell < length groups.now }
    requires group { is_sizable (cell_at cells.now cell) ≡ true → slice_index_or groups.now cell [] ≡ alternatives cells.now cell }
    requires own { own.now ≡ cell ∷ [] }
    ensures { result.now ≡ alternatives cells.now cell }
{
    if is_sizable(cells.at(cell as usize)) {
        return groups.at(cell as usize);
    }
    own
}

/// The lists of all classes, one after another, where each class has its list at the number of its first cell.
pub fn lay_out(
    alloc: Global,
    cells: &Cells,
    classes: &Numbers,
    groups: &Grouped<CellId>,
) -> Result<Alternatives, AllocError>
    requires few { length cells.now ≤ 65535 }
    requires kept { (c : ℕ) → c < length cells.now → AreAlternativesOf cells.now c (alternatives cells.now c) }
    requires classes { AreClasses cells.now classes.now }
    requires as_many { length groups.now ≡ length cells.now }
    requires groups { (c : ℕ) → c < length cells.now → is_sizable (cell_at cells.now c) ≡ true → slice_index classes.now c ≡ c → slice_index_or groups.now c [] ≡ alternatives cells.now c }
    ensures choices { IfOk result (λ a. AreChoices cells.now a.choices a.stretches) }
    ensures shared { IfOk result (λ a. AreShared cells.now a.choices a.stretches) }
{
    let mut choices = Vec::with_capacity(alloc, cells.len())?;
    let mut stretches = vec![in alloc; NONE; cells.len()]?;
    for cell in 0..cells.len() as u32 {
        if *classes.at(cell as usize) != cell {
            continue;
        }
        let own = [CellId(cell)];
        let list = list_at(cells, groups, cell, own.as_slice());
        put_group(list, &mut choices, &mut stretches)?;
    }
    Ok(Alternatives {
        choices: Rows::from_vec(choices),
        stretches: Rows::from_vec(stretches),
    })
}
