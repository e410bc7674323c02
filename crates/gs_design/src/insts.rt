//! The instances of a design.
#![tactic(auto)]

ghost use Rattle.std.specs.Prelude.{◌≡◌, ◌<◌, ◌≤◌, length, slice_index, slice_index_or, slice_range};
ghost use Rattle.gs_design.specs.Insts.{AreInsts, inst_at, insts_of, row_at};

use crate::ids::{CellId, InstId, NetId};
use crate::named::name_at;
use crate::rows::InstRow;
use gs_list::{Grouped, Rows};
use gs_text::{Name, Names};
use std::marker::Model;

/// The instances of a design, in netlist order. Contracts see a list of instances, each with its `name`, its alternatives `alts`, the
/// place `first` of the netlist's cell among them, the nets `inputs` at its input pins and the net `output`.
///
/// In memory the numbers that timing reads lie apart from the names. The alternatives of an instance are a stretch of one list of
/// choices, so that instances of one class share them.
#[derive(Drop)]
pub struct Insts {
    choices: Rows<CellId>,
    rows: Rows<InstRow>,
    inputs: Grouped<NetId>,
    names: Names,
}

impl Model for Insts {
    ghost use Rattle.std.specs.Prelude.{List};
    ghost use Rattle.gs_design.specs.Insts.{AreInsts, Inst, insts_of};

    ghost Value = { List Inst };

    ghost view = { λ i. insts_of i.choices i.rows i.inputs i.names };

    ghost invariant = { λ i. AreInsts i.choices i.rows i.inputs i.names };
}

// A row's stretch of the choices.
#[inline]
fn stretch(choices: &Rows<CellId>, row: InstRow) -> &[CellId]
    requires order { row.from ≤ row.to }
    requires within { row.to ≤ length choices.now }
    ensures { result.now ≡ slice_range choices.now row.from row.to }
{
    &choices.as_slice()[row.from as usize..row.to as usize]
}

impl Insts {
    /// The instances of these columns: the choices, a row and the input nets of each instance, and the names. It takes no memory.
    pub fn new(
        choices: Rows<CellId>,
        rows: Rows<InstRow>,
        inputs: Grouped<NetId>,
        names: Names,
    ) -> Insts
        requires { AreInsts choices rows inputs names }
        ensures { result ≡ insts_of choices rows inputs names }
    {
        Insts {
            choices,
            rows,
            inputs,
            names,
        }
    }

    /// How many instances there are.
    pub fn len(&self) -> usize
        ensures { result ≡ length self.now }
    {
        self.rows.len()
    }

    /// The name of an instance.
    pub fn name(&self, inst: InstId) -> &Name
        requires { inst < length self.now }
        ensures { result.now ≡ (inst_at self.now inst).name }
    {
        name_at(&self.names, inst.index())
    }

    /// The cells that an instance may take, in the order of their places.
    #[inline]
    pub fn alts(&self, inst: InstId) -> &[CellId]
        requires { inst < length self.now }
        ensures { result.now ≡ (inst_at self.now inst).alts }
    {
        stretch(&self.choices, *self.rows.at(inst.index()))
    }

    /// The cell at a place among the alternatives of an instance.
    #[inline]
    pub fn cell(&self, inst: InstId, place: u32) -> CellId
        requires inst { inst < length self.now }
        requires place { place < length (inst_at self.now inst).alts }
        ensures { result ≡ slice_index (inst_at self.now inst).alts place }
    {
        self.alts(inst)[place as usize]
    }

    /// The place of the netlist's cell among the alternatives of an instance.
    pub fn first(&self, inst: InstId) -> u32
        requires { inst < length self.now }
        ensures { result ≡ (inst_at self.now inst).first }
    {
        self.rows.at(inst.index()).first
    }

    /// The nets at the input pins of an instance, in the order of the pins.
    #[inline]
    pub fn inputs(&self, inst: InstId) -> &[NetId]
        requires { inst < length self.now }
        ensures { result.now ≡ (inst_at self.now inst).inputs }
    {
        self.inputs.at(inst.index())
    }

    /// The net at the output pin of an instance.
    #[inline]
    pub fn output(&self, inst: InstId) -> NetId
        requires { inst < length self.now }
        ensures { result ≡ (inst_at self.now inst).output }
    {
        self.rows.at(inst.index()).output
    }
}
