//! What the alternatives of a cell are.
#![tactic(auto)]

ghost use Rattle.std.specs.Prelude.{◌<◌, ℕ, List, length, Option, ℤ};
ghost use Rattle.gs_design.specs.Alternatives.{alternatives};
ghost use Rattle.gs_design.specs.Class.{AreAlternativesOf};
ghost use Rattle.gs_design.specs.Library.{IsLibrary};
ghost use Rattle.gs_design.specs.declared.cell.Cell.{Cell};

/// A law on the alternatives of a cell of a library, also of one whose cells are taken apart: at most 1,024 cells that differ, the cell
/// itself among them; of a sizable cell exactly the cells alike, by leakage and then by name; of any other cell itself alone. The call
/// does nothing.
pub fn alternatives_are_kept()
    ensures { (slew_default : Option ℤ) (cells : List Cell) (c : ℕ) → IsLibrary slew_default cells → c < length cells → AreAlternativesOf cells c (alternatives cells c) }
{}
