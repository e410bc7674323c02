//! The mixed design: unequal rise and fall, tables over slews and loads in both orders, arcs of each sense, a flip-flop, a driving cell,
//! three sizes of one function, and pin bounds of their own. `examples/mixed` has the same files.

use crate::linked::Texts;

/// Its library, in units of 10 ps and 1 pF.
const LIBRARY: &str =
    "/* A small library with what the simple one lacks: unequal rise and fall, tables over slew and load in both orders,
   positive, negative and missing unateness, three sizes of one function, pin bounds of their own. */
library (mixed) {
  time_unit : \"10ps\"; capacitive_load_unit (1, pf); leakage_power_unit : \"1nW\"; default_max_transition : 9.5;
  lu_table_template (sl) { variable_1 : input_net_transition; variable_2 : total_output_net_capacitance;
    index_1 (\"0, 2, 7\"); index_2 (\"0.001, 0.004, 0.016\"); }
  lu_table_template (ls) { variable_1 : total_output_net_capacitance; variable_2 : input_transition_time;
    index_1 (\"0.002, 0.010\"); index_2 (\"0.5, 6\"); }
  lu_table_template (l) { variable_1 : total_output_net_capacitance; index_1 (\"0, 0.02\"); }
  cell (INV_S) { area : 1.5; cell_leakage_power : 1.25; cell_footprint : \"inv\";
    pin (A) { direction : input; capacitance : 0.0011; max_transition : 8.25; }
    pin (Y) { direction : output; max_capacitance : 0.012; function : \"A'\";
      timing () { related_pin : \"A\"; timing_sense : negative_unate;
        cell_rise (sl) { values (\"1.1, 2.3, 6.2\", \"1.6, 2.9, 7.1\", \"2.2, 3.9, 9.4\"); }
        cell_fall (sl) { values (\"0.9, 1.8, 5.1\", \"1.2, 2.2, 5.6\", \"1.3, 2.9, 7.3\"); }
        rise_transition (sl) { values (\"0.8, 2.1, 6.9\", \"0.9, 2.2, 7.0\", \"1.9, 3.0, 7.6\"); }
        fall_transition (sl) { values (\"0.6, 1.6, 5.2\", \"0.7, 1.7, 5.3\", \"1.5, 2.4, 5.9\"); } } } }
  cell (INV_M) { area : 2; cell_leakage_power : 2.5; cell_footprint : \"inv\";
    pin (A) { direction : input; capacitance : 0.0021; }
    pin (Y) { direction : output; max_capacitance : 0.024; function : \"!A\";
      timing () { related_pin : \"A\"; timing_sense : negative_unate;
        cell_rise (ls) { values (\"1.05, 1.75\", \"2.65, 4.05\"); } cell_fall (ls) { values (\"0.85, 1.2\", \"2.05, 3.1\"); }
        rise_transition (ls) { values (\"0.7, 1.4\", \"2.35, 2.9\"); } fall_transition (ls) { values (\"0.55, 1.1\", \"1.8, 2.3\"); } } } }
  cell (INV_L) { area : 3; cell_leakage_power : 5.5; cell_footprint : \"inv\";
    pin (A) { direction : input; capacitance : 0.0043; }
    pin (Y) { direction : output; max_capacitance : 0.05; function : \"(!(A))\";
      timing () { related_pin : \"A\"; timing_sense : negative_unate;
        cell_rise (l) { values (\"0.75, 2.15\"); } cell_fall (l) { values (\"0.6, 1.7\"); }
        rise_transition (l) { values (\"0.45, 2.05\"); } fall_transition (l) { values (\"0.35, 1.65\"); } } } }
  cell (BUF_M) { area : 3; cell_leakage_power : 3.1; cell_footprint : \"buf\";
    pin (A) { direction : input; capacitance : 0.0013; }
    pin (Y) { direction : output; max_capacitance : 0.03; function : \"A\";
      timing () { related_pin : \"A\"; timing_sense : positive_unate;
        cell_rise (l) { values (\"1.9, 3.3\"); } cell_fall (l) { values (\"2.4, 3.6\"); }
        rise_transition (sl) { values (\"0.5, 0.9, 2.2\", \"0.6, 1.0, 2.3\", \"0.8, 1.1, 2.5\"); } fall_transition (scalar) { values (\"1.35\"); } } } }
  cell (NAND_S) { area : 2; cell_leakage_power : 2.2; cell_footprint : \"nand\";
    pin (B) { direction : input; capacitance : 0.0012; } pin (A) { direction : input; capacitance : 0.0014; }
    pin (Y) { direction : output; max_capacitance : 0.011; function : \"!(A & B)\";
      timing () { related_pin : \"B\"; timing_sense : negative_unate;
        cell_rise (sl) { values (\"1.3, 2.6, 6.8\", \"1.7, 3.1, 7.4\", \"2.6, 4.3, 9.9\"); } cell_fall (l) { values (\"1.2, 7.1\"); }
        rise_transition (l) { values (\"1.0, 7.7\"); } fall_transition (l) { values (\"0.9, 6.1\"); } }
      timing () { related_pin : \"A\"; timing_sense : negative_unate;
        cell_rise (l) { values (\"1.15, 6.9\"); } cell_fall (sl) { values (\"1.0, 2.1, 5.7\", \"1.35, 2.5, 6.1\", \"1.8, 3.3, 7.9\"); }
        rise_transition (sl) { values (\"0.9, 2.3, 7.2\", \"1.0, 2.4, 7.3\", \"2.1, 3.2, 7.9\"); } fall_transition (l) { values (\"0.8, 5.9\"); } } } }
  cell (NAND_L) { area : 4; cell_leakage_power : 4.75; cell_footprint : \"nand\";
    pin (A, B) { direction : input; capacitance : 0.0027; }
    pin (Y) { direction : output; max_capacitance : 0.022; function : \"A' + B'\";
      timing () { related_pin : \"A B\"; timing_sense : negative_unate;
        cell_rise (l) { values (\"0.95, 3.4\"); } cell_fall (l) { values (\"0.9, 3.2\"); }
        rise_transition (l) { values (\"0.8, 3.6\"); } fall_transition (l) { values (\"0.7, 3.0\"); } } } }
  cell (XOR_M) { area : 5; cell_leakage_power : 6.4;
    pin (A, B) { direction : input; capacitance : 0.0025; max_transition : 9.1; }
    pin (Y) { direction : output; max_capacitance : 0.015; function : \"A ^ B\";
      timing () { related_pin : \"A\"; timing_sense : positive_unate;
        cell_rise (l) { values (\"2.1, 5.0\"); } cell_fall (l) { values (\"2.3, 5.4\"); }
        rise_transition (l) { values (\"1.1, 4.3\"); } fall_transition (l) { values (\"1.0, 4.1\"); } }
      timing () { related_pin : \"A\"; timing_sense : negative_unate;
        cell_rise (l) { values (\"2.4, 5.6\"); } cell_fall (l) { values (\"1.9, 4.9\"); }
        rise_transition (l) { values (\"1.2, 4.6\"); } fall_transition (l) { values (\"0.9, 3.9\"); } }
      timing () { related_pin : \"B\";
        cell_rise (sl) { values (\"2.0, 3.1, 7.0\", \"2.2, 3.4, 7.3\", \"2.9, 4.0, 8.1\"); } cell_fall (sl) { values (\"1.8, 2.7, 6.1\", \"2.0, 3.0, 6.4\", \"2.6, 3.7, 7.3\"); }
        rise_transition (l) { values (\"1.15, 4.5\"); } fall_transition (l) { values (\"1.05, 4.0\"); } } } }
  cell (DFF_M) { area : 9; cell_leakage_power : 8;
    ff (IQ, IQN) { next_state : \"D\"; clocked_on : \"CK\"; }
    pin (D) { direction : input; capacitance : 0.0016; } pin (CK) { direction : input; capacitance : 0.0017; clock : true; }
    pin (Q) { direction : output; max_capacitance : 0.025; function : \"IQ\";
      timing () { related_pin : \"CK\"; timing_type : rising_edge; timing_sense : non_unate;
        cell_rise (l) { values (\"3.3, 5.9\"); } cell_fall (l) { values (\"3.6, 5.5\"); }
        rise_transition (l) { values (\"0.9, 3.1\"); } fall_transition (l) { values (\"0.8, 2.9\"); } }
      timing () { related_pin : \"CK\"; timing_type : falling_edge;
        cell_rise (l) { values (\"90, 90\"); } cell_fall (l) { values (\"90, 90\"); }
        rise_transition (l) { values (\"90, 90\"); } fall_transition (l) { values (\"90, 90\"); } } } }
}
";

/// Its netlist.
const NETLIST: &str = "module mixed (ck, a, b, y, w);
  input ck, a, b;
  output y, w;
  wire n1, n2, n3, n4, n5, n6, n7, q;
  INV_M u1 (.A(a), .Y(n1));
  NAND_L u2 (.A(n1), .B(b), .Y(n2));
  BUF_M u3 (.A(n2), .Y(n3));
  XOR_M u4 (.A(n1), .B(n3), .Y(n4));
  DFF_M r1 (.D(n4), .CK(ck), .Q(q));
  NAND_S u5 (.A(q), .B(n2), .Y(n5));
  INV_L u6 (.A(n5), .Y(n6));
  XOR_M u7 (.A(n6), .B(q), .Y(y));
  INV_M u8 (.A(n3), .Y(n7));
  INV_S u9 (.A(n7), .Y(w));
endmodule
";

/// Its wires.
const WIRES: &str = "*C_UNIT 1 PF
*D_NET n1 0.0021
*END
*D_NET n2 0.0030
*END
*D_NET n3 0.0007
*END
*D_NET n4 0.0012
*END
*D_NET n5 0.0040
*END
*D_NET n6 0.0018
*END
*D_NET q 0.0026
*END
*D_NET y 0.0009
*END
";

/// Its constraints, which the netlist's sizes meet.
pub(crate) const LIMITS: &str = "create_clock -name clk -period 21.5 [get_ports ck]
set_input_delay 1.5 [get_ports a] -clock clk
set_input_delay 3.25 [get_ports b] -clock clk
set_driving_cell -lib_cell BUF_M -pin Y -input_transition_rise 1.2 -input_transition_fall 2.6 [get_ports a]
set_output_delay 4 [get_ports y] -clock clk
set_output_delay 6.5 [get_ports w] -clock clk
set_load -pin_load 0.005 [get_ports y]
set_load -pin_load 0.0095 [get_ports w]
";

/// The same with a shorter period, which neither these sizes nor smaller ones meet.
pub(crate) const TIGHT_LIMITS: &str = "create_clock -name clk -period 15 [get_ports ck]
set_input_delay 1.5 [get_ports a] -clock clk
set_input_delay 3.25 [get_ports b] -clock clk
set_driving_cell -lib_cell BUF_M -pin Y -input_transition_rise 1.2 -input_transition_fall 2.6 [get_ports a]
set_output_delay 4 [get_ports y] -clock clk
set_output_delay 6.5 [get_ports w] -clock clk
set_load -pin_load 0.005 [get_ports y]
set_load -pin_load 0.0095 [get_ports w]
";

/// The texts of the design with these constraints.
pub(crate) fn texts_with(sdc: &'static str) -> Texts<'static> {
    Texts {
        library: LIBRARY.as_bytes(),
        verilog: NETLIST.as_bytes(),
        spef: WIRES.as_bytes(),
        sdc: sdc.as_bytes(),
    }
}
