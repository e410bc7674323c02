//! A chain of two inverters of one class, with sizes and moves of it, for the tests of trials and books.

ghost use Rattle.std.specs.Prelude.{◌≡◌, IfOk};
ghost use Rattle.gs_design.specs.Sizes.{FitSizes};
ghost use Rattle.gs_move.specs.Moves.{is_move};

use crate::linked::{Texts, design_of};
use gs_design::{Design, InstId, SizeView, Sizes};
use gs_move::Move;
use std::alloc::Global;
use std::test::Fail;

/// Two inverters of one class: I1 leaks less, I2 drives more.
pub(crate) const LIBRARY: &[u8] =
    b"library (rows) { time_unit : \"1ps\"; capacitive_load_unit (1, ff); leakage_power_unit : \"1uW\"; default_max_transition : 100; lu_table_template (t) { variable_1 : total_output_net_capacitance; index_1 (\"0, 10\"); } cell (I1) { cell_leakage_power : 1; cell_footprint : inv; pin (a) { direction : input; capacitance : 1; } pin (o) { direction : output; max_capacitance : 8; function : \"!a\"; timing () { related_pin : a; timing_sense : negative_unate; cell_rise (t) { values (\"4, 24\"); } cell_fall (t) { values (\"4, 24\"); } rise_transition (t) { values (\"2, 12\"); } fall_transition (t) { values (\"2, 12\"); } } } } cell (I2) { cell_leakage_power : 3; cell_footprint : inv; pin (a) { direction : input; capacitance : 2; } pin (o) { direction : output; max_capacitance : 16; function : \"!a\"; timing () { related_pin : a; timing_sense : negative_unate; cell_rise (t) { values (\"4, 14\"); } cell_fall (t) { values (\"4, 14\"); } rise_transition (t) { values (\"2, 7\"); } fall_transition (t) { values (\"2, 7\"); } } } } }";

/// One inverter.
pub(crate) const ONE: &[u8] =
    b"module b (x, z); input x; output z; I2 g1 (.a(x), .o(z)); endmodule";

/// A chain of two.
pub(crate) const CHAIN: &[u8] =
    b"module c (x, z); input x; output z; I2 g1 (.a(x), .o(n1)); I2 g2 (.a(n1), .o(z)); endmodule";

/// A period at which the second inverter must not be the slower cell.
pub(crate) const FAST: &[u8] =
    b"create_clock -name k -period 21\nset_load -pin_load 6 [get_ports z]\n";

/// A period that any cells meet.
pub(crate) const SLOW: &[u8] =
    b"create_clock -name k -period 100\nset_load -pin_load 6 [get_ports z]\n";

/// The design of a netlist over these inverters.
pub(crate) fn inverters(alloc: Global, verilog: &[u8], sdc: &[u8]) -> Result<Design, Fail> {
    let texts = Texts {
        library: LIBRARY,
        verilog,
        spef: b"*C_UNIT 1 FF",
        sdc,
    };
    design_of(alloc, &texts)
}

/// These places, where they fit the design.
pub(crate) fn fitting(alloc: Global, design: &Design, places: &[u32]) -> Result<Sizes, Fail>
    ensures { IfOk result (λ s. FitSizes design.now s) }
{
    if places.len() != design.insts.len() {
        return Err(Fail::new("a place for each instance"));
    }
    for number in 0..design.insts.len() {
        if design.insts.alts(InstId(number as u32)).len() <= places[number] as usize {
            return Err(Fail::new("a place of an alternative"));
        }
    }
    Ok(Sizes::from_vec(Vec::from_slice(alloc, places)?))
}

/// Whether it is a move at the sizes.
pub(crate) fn is_one(design: &Design, sizes: &Sizes, mv: &Move) -> bool
    requires { FitSizes design.now sizes.now }
    ensures { result ≡ is_move design.now sizes.now mv.now }
{
    if mv.inst.index() >= design.insts.len() {
        return false;
    }
    let inside = (mv.place as usize) < design.insts.alts(mv.inst).len();
    inside && mv.place != sizes.place(mv.inst)
}
