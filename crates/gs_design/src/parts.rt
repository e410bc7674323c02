//! The parts of a design.
#![tactic(auto)]

use crate::cell::Cells;
use crate::end::Ends;
use crate::ids::NetId;
use crate::insts::Insts;
use crate::nets::Nets;
use gs_list::Rows;
use gs_quantity::Micro;
use gs_text::Name;

/// A list of cells by number.
pub type CellIds = Rows<crate::ids::CellId>;

/// A list of nets by number.
pub type NetIds = Rows<NetId>;

/// A list of numbers.
pub type Numbers = Rows<u32>;

/// What a [`Design`](crate::Design) is made of.
#[derive(Drop)]
pub struct Parts {
    /// The library's cells.
    pub cells: Cells,
    /// The bound on the slew at pins that have none of their own, in millionths of 1 ps.
    pub slew_default: Option<Micro>,
    /// The unit of leakage, as the library spells it.
    pub leak_unit: Name,
    /// The instances, in netlist order.
    pub insts: Insts,
    /// The nets, by number.
    pub nets: Nets,
    /// The endpoints, by number.
    pub ends: Ends,
    /// The nets in an order in which each stands after the input nets of a gate that drives it.
    pub order: NetIds,
    /// The place of each net in that order.
    pub ranks: Numbers,
    /// The clock's period, in millionths of 1 ps.
    pub period: Micro,
    /// The greatest area that is allowed, in millionths of the library's unit, where there is a bound.
    pub area_bound: Option<Micro>,
}
