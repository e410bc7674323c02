//! What an evaluation reads of a design: by numbers alone, with no search and no memory taken.
#![tactic(auto)]

ghost use Rattle.std.specs.Prelude.{◌≡◌, ◌<◌, length, slice_index_or};
ghost use Rattle.gs_design.specs.Cell.{is_gate};
ghost use Rattle.gs_design.specs.declared.hot.PinData.{PinData};

use crate::arc::TimingArc;
use crate::cell::Cell;
use crate::design::Design;
use crate::hot::PinData;
use crate::ids::{CellId, InstId, NetId};
use crate::kind::CellKind;

#[inline]
fn is_gate_kind(kind: CellKind) -> bool
    ensures { result ≡ is_gate kind }
{
    match kind {
        CellKind::Gate { .. } => true,
        CellKind::Flop => false,
    }
}

#[inline]
fn data_at(pins: &[PinData], pin: usize) -> &PinData
    requires { pin < length pins.now }
    ensures { (d : PinData) → result.now ≡ slice_index_or pins.now pin d }
{
    &pins[pin]
}

impl Design {
    ghost use Rattle.std.specs.Prelude.{◌≡◌, ◌<◌, length};
    ghost use Rattle.gs_design.specs.Cell.{pin_at};
    ghost use Rattle.gs_design.specs.Cells.{cell_at};
    ghost use Rattle.gs_design.specs.Ends.{ends_at, is_gate_inst};
    ghost use Rattle.gs_design.specs.Hot.{pin_data};
    ghost use Rattle.gs_design.specs.Insts.{inst_at};
    ghost use Rattle.gs_design.specs.Load.{output_pin};

    /// A cell.
    #[inline]
    pub fn cell(&self, cell: CellId) -> &Cell
        requires { cell < length self.now.cells }
        ensures { result.now ≡ cell_at self.now.cells cell }
    {
        self.cells.at(cell.index())
    }

    /// The timing arcs of a cell.
    #[inline]
    pub fn arcs(&self, cell: CellId) -> &[TimingArc]
        requires { cell < length self.now.cells }
        ensures { result.now ≡ (cell_at self.now.cells cell).arcs }
    {
        self.cell(cell).arcs.as_slice()
    }

    /// What timing reads of a cell's pin.
    #[inline]
    pub fn pin(&self, cell: CellId, pin: u8) -> &PinData
        requires cell { cell < length self.now.cells }
        requires pin { pin < length (cell_at self.now.cells cell).pins }
        ensures { result.now ≡ pin_data self.now.slew_default (pin_at (cell_at self.now.cells cell).pins pin) }
    {
        data_at(self.pin_data.at(cell.index()), pin as usize)
    }

    /// What timing reads of a cell's output pin.
    #[inline]
    pub fn output(&self, cell: CellId) -> &PinData
        requires { cell < length self.now.cells }
        ensures { result.now ≡ pin_data self.now.slew_default (output_pin (cell_at self.now.cells cell)) }
    {
        let pins = self.pin_data.at(cell.index());
        data_at(pins, pins.len() - 1)
    }

    /// Whether an instance is a gate, and no flip-flop.
    #[inline]
    pub fn is_gate(&self, inst: InstId) -> bool
        requires { inst < length self.now.insts }
        ensures { result ≡ is_gate_inst self.now.cells (inst_at self.now.insts inst) }
    {
        is_gate_kind(self.cell(self.insts.cell(inst, 0)).kind)
    }

    /// The numbers of the endpoints on a net, rising.
    #[inline]
    pub fn ends_at(&self, net: NetId) -> &[u32]
        requires { net < length self.now.nets }
        ensures { result.now ≡ ends_at self.now.ends net }
    {
        self.net_ends.at(net.index())
    }
}
