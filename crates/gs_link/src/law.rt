//! The law of the link.

ghost use Rattle.std.specs.Prelude.{List};
ghost use Rattle.gs_design.specs.declared.library.Library.{Library};
ghost use Rattle.gs_link.specs.Answers.{IsLawfulUpToCycle};
ghost use Rattle.gs_link.specs.Cause.{HasCause};
ghost use Rattle.gs_link.specs.Linked.{Linked};
ghost use Rattle.gs_sdc.specs.Terms.{Terms};
ghost use Rattle.gs_spef.specs.declared.wires.Wire.{Wire};
ghost use Rattle.gs_verilog.specs.Circuit.{Circuit, IsNetlist};

use gs_levels::each_graph_is_decided;

/// Each netlist makes one design with a library, wires and constraints, or there is a cause other than want of memory, which is one up to
/// the cycle that it carries, and never both. The call does nothing.
pub fn each_design_is_decided()
    ensures { (c : Circuit) (l : Library) (w : List Wire) (k : Terms) → IsNetlist c → IsLawfulUpToCycle (Linked c l w k) (HasCause c l w k) }
{
    each_graph_is_decided();
}
