//! Designs.
#![tactic(auto)]

ghost use Rattle.std.specs.Prelude.{◌≡◌, length};
ghost use Rattle.gs_design.specs.Design.{IsDesign};
ghost use Rattle.gs_design.specs.Hot.{ends_by_net, hot_pins};

use crate::cell::Cells;
use crate::end::Ends;
use crate::hot::PinData;
use crate::insts::Insts;
use crate::nets::Nets;
use crate::parts::{NetIds, Numbers};
use gs_list::Grouped;
use gs_quantity::Micro;
use gs_text::Name;

/// A linked design: instances and nets, the cells that each instance may take, the endpoints, and an order for timing.
///
/// Every design keeps what `specs/Design.antt` lists as `IsDesign`, field by field: each number in it is a place in its list; the drivers
/// that are instances are exactly the output pins of its instances, and the sinks exactly their input pins; the alternatives of an
/// instance are gates with an arc from every input, or one flip-flop; endpoints are at output ports, and then at the data pins of the
/// flip-flops, these with the period as their bound; a net stands in `order` after the input nets of the gate that drives it; and the
/// limits of its numbers.
///
/// Beside these parts it keeps copies that timing reads: the data of all cells' pins, and the endpoints by net.
#[derive(Drop)]
pub struct Design {
    /// The library's cells.
    pub cells: Cells,
    /// The bound on the slew at pins that have none of their own, in millionths of 1 ps.
    pub slew_default: Option<Micro>,
    /// The unit of leakage, as the library spells it.
    pub leak_unit: Name,
    /// The instances, in netlist order.
    pub insts: Insts,
    /// The nets, by number.
    pub nets: Nets,
    /// The endpoints, by number.
    pub ends: Ends,
    /// The nets in an order in which each stands after the input nets of a gate that drives it.
    pub order: NetIds,
    /// The place of each net in that order.
    pub ranks: Numbers,
    /// The clock's period, in millionths of 1 ps.
    pub period: Micro,
    /// The greatest area that is allowed, in millionths of the library's unit, where there is a bound.
    pub area_bound: Option<Micro>,
    pub(crate) pin_data: Grouped<PinData>,
    pub(crate) net_ends: Grouped<u32>,
    pub ghost well: { IsDesign cells slew_default insts nets ends order ranks period area_bound },
    ghost pin_data_is: { pin_data ≡ hot_pins slew_default cells },
    ghost net_ends_is: { net_ends ≡ ends_by_net ends (length nets) },
}
