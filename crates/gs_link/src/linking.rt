//! The link.
#![tactic(auto)]

ghost use Rattle.std.specs.Prelude.{IfErr, IfOk};
ghost use Rattle.gs_design.specs.Parts.{parts_of};
ghost use Rattle.gs_grammar.specs.Answers.{IsDecided};
ghost use Rattle.gs_link.specs.Answers.{IsOnlyDesign};
ghost use Rattle.gs_link.specs.Cause.{HasCause, IsExactUpToCycle};
ghost use Rattle.gs_link.specs.Linked.{Linked};
ghost use Rattle.gs_survey.specs.declared.error.LinkErr.{LinkErr};

use crate::assemble::link_four;
use crate::law::each_design_is_decided;
use gs_design::{Design, Library};
use gs_sdc::Constraints;
use gs_spef::Wires;
use gs_survey::LinkErr;
use gs_verilog::Netlist;
use std::alloc::Global;

/// The design of a netlist, a library, wires and constraints. It takes the netlist and the library apart. Names are looked up in ordered
/// maps, and all that comes after goes by numbers, so the time is that of the inputs' size, but for a sort of the names and of the nets.
///
/// # Errors
///
/// The first of [`LinkErr`]'s refusals that stands, in the order in which they are listed there: each with the first place in file order,
/// instances before driving cells, and nets by number. `Mem` where memory ran out.
pub fn link(
    alloc: Global,
    netlist: Netlist,
    library: Library,
    wires: &Wires,
    limits: &Constraints,
) -> Result<Design, LinkErr>
    // The design is that of the four.
    ensures ok { IfOk result (λ d. Linked netlist library wires.now limits.now (parts_of d)) }
    // Four that make a design are linked to it, unless memory runs out.
    ensures only { IsOnlyDesign (Linked netlist library wires.now limits.now) result }
    // Each refusal comes only by its cause,
    ensures err { IfErr result (λ e. HasCause netlist library wires.now limits.now e) }
    // and where a cause stands, its refusal comes, up to the cycle that it carries, unless memory runs out.
    ensures exact { IsExactUpToCycle (HasCause netlist library wires.now limits.now) result }
    // The four make a design, or have a cause other than want of memory.
    ensures decided { IsDecided LinkErr.Mem (Linked netlist library wires.now limits.now) (HasCause netlist library wires.now limits.now) }
{
    each_design_is_decided();
    let _insts = netlist.insts();
    link_four(alloc, netlist, library, wires, limits)
}
