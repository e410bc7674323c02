//! The parts of the linked design, each from the four parsed files and what is found in them.
#![tactic(auto)]

ghost use Rattle.std.specs.Prelude.{◌≡◌, ◌<◌, IfErr, IfOk, None, length, map};
ghost use Rattle.std.specs.List.{range_with_len};
ghost use Rattle.gs_alternatives.specs.Choices.{AreChoices};
ghost use Rattle.gs_link.specs.Columns.{BeginsWith};
ghost use Rattle.gs_link.specs.Linked.{IsByLevel, edges_of, linked_ends, linked_insts, linked_nets};
ghost use Rattle.gs_link.specs.Pieces.{ArePieces, IsLoopErr, IsNumbering};
ghost use Rattle.gs_survey.specs.Fault.{first_fault};
ghost use Rattle.gs_survey.specs.Found.{AreFound};
ghost use Rattle.gs_survey.specs.Survey.{AreUsed, IsSurvey};
ghost use Rattle.gs_survey.specs.Uses.{all_input_nets, input_ports, new_number, output_nets, output_ports, used_nets};
ghost use Rattle.gs_verilog.specs.Circuit.{IsNetlist};

use crate::build::{build_ends, build_insts, build_nets, build_order};
use crate::order::{find_ranks, net_ids};
use crate::pieces::{Numbering, Pieces};
use gs_alternatives::Alternatives;
use gs_design::{Ends, Insts, Library, Nets, Numbers, alternatives_are_kept};
use gs_list::Rows;
use gs_sdc::Constraints;
use gs_spef::Wires;
use gs_survey::{LinkErr, Survey, Tally, Used};
use gs_verilog::Netlist;
use std::alloc::{AllocError, Global};

/// The four parsed files of a design.
#[derive(Clone, Copy)]
pub struct Files<'a> {
    pub netlist: &'a Netlist,
    pub library: &'a Library,
    pub wires: &'a Wires,
    pub limits: &'a Constraints,
}

// The instances of the design.
fn link_insts(
    alloc: Global,
    files: &Files,
    found: &Rows<u32>,
    gates: &Rows<u32>,
    reads: &[u32],
    alternatives: Alternatives,
    numbers: &Rows<u32>,
) -> Result<Insts, AllocError>
    requires kept { IsNetlist files.now.netlist.now }
    requires unrefused { first_fault files.now.netlist.now files.now.library.now files.now.wires.now files.now.limits.now ≡ None }
    requires found { AreFound files.now.library.now.cells files.now.netlist.now.insts found.now }
    requires gates { gates.now ≡ output_nets files.now.library.now.cells files.now.netlist.now.insts }
    requires reads { BeginsWith (all_input_nets files.now.library.now.cells files.now.netlist.now.insts) reads.now }
    requires choices { AreChoices files.now.library.now.cells alternatives.choices alternatives.stretches }
    requires numbers { numbers.now ≡ map (new_number files.now.library.now.cells files.now.netlist.now) (range_with_len 0 (length files.now.netlist.now.nets)) }
    ensures { IfOk result (λ i. i ≡ linked_insts files.now.library.now.cells files.now.netlist.now) }
{
    build_insts(
        alloc,
        files.library.cells.as_slice(),
        files.netlist.insts(),
        found,
        gates,
        reads,
        alternatives,
        numbers,
    )
}

// The order of the nets, or the refusal of a cycle.
fn link_order(
    alloc: Global,
    files: &Files,
    insts: &Insts,
    used: &Rows<u32>,
) -> Result<Numbers, LinkErr>
    requires kept { IsNetlist files.now.netlist.now }
    requires unrefused { first_fault files.now.netlist.now files.now.library.now files.now.wires.now files.now.limits.now ≡ None }
    requires insts { insts.now ≡ linked_insts files.now.library.now.cells files.now.netlist.now }
    requires used { used.now ≡ used_nets files.now.library.now.cells files.now.netlist.now }
    ensures order { IfOk result (λ o. IsByLevel (length (used_nets files.now.library.now.cells files.now.netlist.now)) (edges_of files.now.library.now.cells (linked_insts files.now.library.now.cells files.now.netlist.now)) o) }
    ensures few { IfOk result (λ o. length o < 4194304) }
    ensures fault { IfErr result (λ e. IsLoopErr files.now.netlist.now.nets (used_nets files.now.library.now.cells files.now.netlist.now) (edges_of files.now.library.now.cells (linked_insts files.now.library.now.cells files.now.netlist.now)) e) }
{
    alternatives_are_kept();
    build_order(
        alloc,
        files.library.cells.as_slice(),
        files.netlist.nets(),
        insts,
        used,
    )
}

// The nets of the design.
fn link_nets(
    alloc: Global,
    files: &Files,
    insts: &Insts,
    inputs: &Tally,
    numbering: &Numbering,
) -> Result<Nets, AllocError>
    requires kept { IsNetlist files.now.netlist.now }
    requires unrefused { first_fault files.now.netlist.now files.now.library.now files.now.wires.now files.now.limits.now ≡ None }
    requires insts { insts.now ≡ linked_insts files.now.library.now.cells files.now.netlist.now }
    requires inputs { inputs.now ≡ input_ports files.now.netlist.now.ports }
    requires numbering { IsNumbering files.now.library.now.cells files.now.netlist.now files.now.wires.now files.now.limits.now numbering.now }
    ensures { IfOk result (λ n. n ≡ linked_nets files.now.library.now.cells files.now.netlist.now files.now.wires.now files.now.limits.now) }
{
    build_nets(
        alloc,
        files.netlist.nets(),
        insts,
        inputs,
        &numbering.values,
        &numbering.used,
    )
}

// The endpoints of the design.
fn link_ends(
    alloc: Global,
    files: &Files,
    insts: &Insts,
    outputs: &Tally,
    numbering: &Numbering,
) -> Result<Ends, AllocError>
    requires kept { IsNetlist files.now.netlist.now }
    requires unrefused { first_fault files.now.netlist.now files.now.library.now files.now.wires.now files.now.limits.now ≡ None }
    requires insts { insts.now ≡ linked_insts files.now.library.now.cells files.now.netlist.now }
    requires outputs { outputs.now ≡ output_ports files.now.netlist.now.ports }
    requires numbering { IsNumbering files.now.library.now.cells files.now.netlist.now files.now.wires.now files.now.limits.now numbering.now }
    ensures { IfOk result (λ e. e ≡ linked_ends files.now.library.now.cells files.now.netlist.now files.now.limits.now) }
{
    alternatives_are_kept();
    build_ends(
        alloc,
        files.library.cells.as_slice(),
        insts,
        outputs,
        numbering,
        files.limits.period(),
    )
}

// The parts of the design that are built, or the refusal of a cycle.
fn link_parts(
    alloc: Global,
    files: &Files,
    found: &Rows<u32>,
    used: &Used,
    alternatives: Alternatives,
    numbering: &Numbering,
) -> Result<Pieces, LinkErr>
    requires kept { IsNetlist files.now.netlist.now }
    requires unrefused { first_fault files.now.netlist.now files.now.library.now files.now.wires.now files.now.limits.now ≡ None }
    requires found { AreFound files.now.library.now.cells files.now.netlist.now.insts found.now }
    requires used { AreUsed files.now.library.now.cells files.now.netlist.now used.now }
    requires choices { AreChoices files.now.library.now.cells alternatives.choices alternatives.stretches }
    requires numbering { IsNumbering files.now.library.now.cells files.now.netlist.now files.now.wires.now files.now.limits.now numbering.now }
    ensures pieces { IfOk result (λ p. ArePieces files.now.library.now.cells files.now.netlist.now files.now.wires.now files.now.limits.now p) }
    ensures fault { IfErr result (λ e. IsLoopErr files.now.netlist.now.nets (used_nets files.now.library.now.cells files.now.netlist.now) (edges_of files.now.library.now.cells (linked_insts files.now.library.now.cells files.now.netlist.now)) e) }
{
    let insts = link_insts(
        alloc,
        files,
        found,
        &used.gates,
        used.read.as_slice(),
        alternatives,
        &numbering.numbers,
    )?;
    let order = match link_order(alloc, files, &insts, &numbering.used) {
        Ok(order) => order,
        Err(error) => return Err(error),
    };
    let nets = link_nets(alloc, files, &insts, &used.inputs, numbering)?;
    let ends = link_ends(alloc, files, &insts, &used.outputs, numbering)?;
    let ranks = find_ranks(alloc, order.as_slice())?;
    let order = net_ids(alloc, order.as_slice())?;
    Ok(Pieces {
        insts,
        nets,
        ends,
        order,
        ranks,
    })
}

/// The parts of the design that are built, or the refusal of a cycle.
pub fn build_pieces(
    alloc: Global,
    files: &Files,
    survey: Survey,
    numbering: &Numbering,
) -> Result<Pieces, LinkErr>
    requires kept { IsNetlist files.now.netlist.now }
    requires survey { IsSurvey files.now.netlist.now files.now.library.now files.now.wires.now files.now.limits.now survey }
    requires numbering { IsNumbering files.now.library.now.cells files.now.netlist.now files.now.wires.now files.now.limits.now numbering.now }
    ensures pieces { IfOk result (λ p. ArePieces files.now.library.now.cells files.now.netlist.now files.now.wires.now files.now.limits.now p) }
    ensures fault { IfErr result (λ e. IsLoopErr files.now.netlist.now.nets (used_nets files.now.library.now.cells files.now.netlist.now) (edges_of files.now.library.now.cells (linked_insts files.now.library.now.cells files.now.netlist.now)) e) }
{
    let Survey {
        placed,
        used,
        named: _,
        alternatives,
    } = survey;
    link_parts(alloc, files, &placed.found, &used, alternatives, numbering)
}
