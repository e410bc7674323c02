//! The alternatives of all cells.
#![tactic(auto)]

ghost use Rattle.std.specs.Prelude.{◌≡◌, IfOk};
ghost use Rattle.gs_alternatives.specs.Choices.{AreChoices, AreShared};

use crate::choices::Alternatives;
use crate::classes::classes_of;
use crate::groups::groups_of;
use crate::layout::lay_out;
use crate::rank::rank;
use gs_design::{Library, alternatives_are_kept};
use gs_quantity::Mem;
use std::alloc::Global;

/// The alternatives of every cell of a library: of a flip-flop or a marked cell itself alone, of any other the cells that may take its
/// place, by leakage and then by name. Cells of one class share their stretch.
pub fn alternatives_of(alloc: Global, library: &Library) -> Result<Alternatives, Mem>
    ensures choices { IfOk result (λ a. AreChoices library.now.cells a.choices a.stretches) }
    // Cells with the same alternatives have one stretch, and no choice stands for nothing.
    ensures shared { IfOk result (λ a. AreShared library.now.cells a.choices a.stretches) }
{
    let classes = classes_of(alloc, &library.cells)?;
    let order = rank(alloc, &library.cells)?;
    let groups = groups_of(alloc, &order, &classes)?;
    alternatives_are_kept();
    let alternatives = lay_out(alloc, &library.cells, &classes, &groups)?;
    Ok(alternatives)
}
