//! Libraries.
#![tactic(auto)]

ghost use Rattle.gs_design.specs.Library.{IsLibrary};

use crate::cell::Cells;
use crate::units::Units;
use gs_quantity::Micro;
use gs_text::Name;

/// A library of cells, after the Liberty reference manual.
///
/// Every library keeps that it has at most 65,535 cells, that their names differ and none is empty or holds white, that no class of
/// alternatives has more than 1,024 cells, and the range of its default bound. Each cell keeps what [`Cell`](crate::Cell) says.
#[derive(Drop)]
pub struct Library {
    /// The units of time and load.
    pub units: Units,
    /// The unit of leakage, as the library spells it (`leakage_power_unit`); empty where it gives none.
    pub leak_unit: Name,
    /// The bound on the slew at pins that have none of their own (`default_max_transition`), in millionths of 1 ps.
    pub slew_default: Option<Micro>,
    /// The cells, in the order of the library.
    pub cells: Cells,
    pub ghost well: { IsLibrary slew_default cells },
}
