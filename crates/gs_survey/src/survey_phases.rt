//! The four parsed files are checked, and what is found on the way is kept.
#![tactic(auto)]

ghost use Rattle.std.specs.Prelude.{◌≡◌, ◌++◌, ◌<◌, All, IfOk, None, length};
ghost use Rattle.std.specs.List.{IsDistinct};
ghost use Rattle.std.specs.Str.{bytes_eq};
ghost use Rattle.gs_alternatives.specs.Choices.{AreChoices};
ghost use Rattle.gs_survey.specs.Counts.{arc_fault, count_fault, size_fault};
ghost use Rattle.gs_survey.specs.First.{Checks, first_some};
ghost use Rattle.gs_survey.specs.Found.{AreDriving, AreFound};
ghost use Rattle.gs_survey.specs.Instances.{inst_fault, open_pin};
ghost use Rattle.gs_survey.specs.Limits.{limit_fault};
ghost use Rattle.gs_survey.specs.Fault.{first_fault};
ghost use Rattle.gs_survey.specs.Survey.{AreNamed, AreUsed, IsSurvey};
ghost use Rattle.gs_survey.specs.Uses.{input_ports, net_fault, output_ports};
ghost use Rattle.gs_verilog.specs.Circuit.{IsNetlist};

use crate::counts::{check_arcs, check_counts};
use crate::error::LinkErr;
use crate::limits::count_to_last;
use crate::names::Places;
use crate::phases::{check_insts, check_uses, find_driven, find_named, find_placed, find_uses};
use crate::surveyed::{Named, Placed, Survey, Used};
use gs_alternatives::{Alternatives, alternatives_of};
use gs_design::{Cell, Library, alternatives_are_kept};
use gs_list::Rows;
use gs_sdc::Constraints;
use gs_spef::Wires;
use gs_verilog::Netlist;
use std::alloc::Global;

// The cells of instances and the driving cells.
fn survey_insts(
    alloc: Global,
    library: &Library,
    netlist: &Netlist,
    limits: &Constraints,
) -> Result<Placed, LinkErr>
    ensures fault { Checks (inst_fault library.now.cells netlist.now.insts limits.now.drivers) result }
    ensures found { IfOk result (λ p. AreFound library.now.cells netlist.now.insts p.found) }
    ensures driving { IfOk result (λ p. AreDriving library.now.cells limits.now.drivers p.driving) }
{
    let cells = library.cells.as_slice();
    let placed = find_placed(alloc, cells, netlist.insts(), limits.drivers())?;
    match check_insts(alloc, cells, &placed, netlist.insts(), limits.drivers()) {
        Ok(()) => Ok(placed),
        Err(error) => Err(error),
    }
}

// What drives the nets, and what reads them.
fn survey_uses(
    alloc: Global,
    library: &Library,
    netlist: &Netlist,
    placed: &Placed,
) -> Result<Used, LinkErr>
    requires found { AreFound library.now.cells netlist.now.insts placed.now.found }
    requires open { first_some (open_pin library.now.cells) netlist.now.insts ≡ None }
    requires kept { IsNetlist netlist.now }
    ensures fault { Checks (net_fault library.now.cells netlist.now) result }
    ensures used { IfOk result (λ u. AreUsed library.now.cells netlist.now u) }
{
    let used = find_uses(alloc, library.cells.as_slice(), netlist, &placed.found)?;
    match check_uses(alloc, &library.cells, netlist, &used) {
        Ok(()) => Ok(used),
        Err(error) => Err(error),
    }
}

// The numbers of the nets that constraints and wires name.
fn survey_limits(
    alloc: Global,
    netlist: &Netlist,
    used: &Used,
    wires: &Wires,
    limits: &Constraints,
) -> Result<Named, LinkErr>
    requires inputs { used.now.inputs ≡ input_ports netlist.now.ports }
    requires outputs { used.now.outputs ≡ output_ports netlist.now.ports }
    requires inside { All (λ n. n < length netlist.now.nets) (input_ports netlist.now.ports ++ output_ports netlist.now.ports) }
    requires differ { IsDistinct bytes_eq netlist.now.nets }
    ensures fault { Checks (limit_fault netlist.now wires.now limits.now) result }
    ensures named { IfOk result (λ n. AreNamed netlist.now.nets wires.now limits.now n) }
{
    let inputs = Rows::from_vec(Vec::from_slice(alloc, used.inputs.as_slice())?);
    let ports = find_driven(alloc, &inputs, &used.outputs, netlist.nets().len())?;
    let count = count_to_last(ports.as_slice(), netlist.nets().len());
    let front = Places::new(alloc, &netlist.nets()[..count])?;
    find_named(alloc, netlist, &front, used, &ports, wires, limits)
}

// Each cell that is used has an arc from each input, where it is a gate.
fn check_all_arcs(
    alloc: Global,
    library: &Library,
    netlist: &Netlist,
    placed: &Placed,
    limits: &Constraints,
    alternatives: &Alternatives,
) -> Result<(), LinkErr>
    requires found { AreFound library.now.cells netlist.now.insts placed.now.found }
    requires driving { AreDriving library.now.cells limits.now.drivers placed.now.driving }
    requires choices { AreChoices library.now.cells alternatives.now.choices alternatives.now.stretches }
    ensures { Checks (arc_fault library.now.cells netlist.now.insts limits.now.drivers) result }
{
    alternatives_are_kept();
    let found = placed.found.as_slice();
    check_arcs(
        alloc,
        library.cells.as_slice(),
        alternatives,
        found,
        placed.driving.as_slice(),
    )
}

// There isn't too much of any kind.
fn check_all_counts(library: &Library, netlist: &Netlist, placed: &Placed) -> Result<(), LinkErr>
    requires { AreFound library.now.cells netlist.now.insts placed.now.found }
    ensures { Checks (count_fault library.now.cells netlist.now) result }
{
    let found = placed.found.as_slice();
    let nets = netlist.nets().len();
    check_counts(library.cells.as_slice(), found, netlist.insts(), nets)
}

// The alternatives of all cells.
fn survey_sizes(
    alloc: Global,
    library: &Library,
    netlist: &Netlist,
    placed: &Placed,
    limits: &Constraints,
) -> Result<Alternatives, LinkErr>
    requires found { AreFound library.now.cells netlist.now.insts placed.now.found }
    requires driving { AreDriving library.now.cells limits.now.drivers placed.now.driving }
    ensures fault { Checks (size_fault library.now.cells netlist.now limits.now) result }
    ensures choices { IfOk result (λ a. AreChoices library.now.cells a.choices a.stretches) }
{
    let alternatives = match alternatives_of(alloc, library) {
        Ok(alternatives) => alternatives,
        Err(_) => return Err(LinkErr::Mem),
    };
    if let Err(error) = check_all_arcs(alloc, library, netlist, placed, limits, &alternatives) {
        return Err(error);
    }
    match check_all_counts(library, netlist, placed) {
        Ok(()) => Ok(alternatives),
        Err(error) => Err(error),
    }
}

/// What is found in the four parsed files, or the first refusal but a cycle.
pub fn survey(
    alloc: Global,
    netlist: &Netlist,
    library: &Library,
    wires: &Wires,
    limits: &Constraints,
) -> Result<Survey, LinkErr>
    requires { IsNetlist netlist.now }
    ensures fault { Checks (first_fault netlist.now library.now wires.now limits.now) result }
    ensures found { IfOk result (λ s. IsSurvey netlist.now library.now wires.now limits.now s) }
{
    let placed = match survey_insts(alloc, library, netlist, limits) {
        Ok(placed) => placed,
        Err(error) => return Err(error),
    };
    let used = match survey_uses(alloc, library, netlist, &placed) {
        Ok(used) => used,
        Err(error) => return Err(error),
    };
    let named = match survey_limits(alloc, netlist, &used, wires, limits) {
        Ok(named) => named,
        Err(error) => return Err(error),
    };
    match survey_sizes(alloc, library, netlist, &placed, limits) {
        Ok(alternatives) => Ok(Survey {
            placed,
            used,
            named,
            alternatives,
        }),
        Err(error) => Err(error),
    }
}
