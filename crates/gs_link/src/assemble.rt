//! A design of what was found.
#![tactic(auto)]

ghost use Rattle.std.specs.Prelude.{◌≡◌, ◌≢◌, IfErr, IfOk};
ghost use Rattle.gs_design.specs.Design.{IsDesign};
ghost use Rattle.gs_design.specs.Parts.{parts_of};
ghost use Rattle.gs_link.specs.Cause.{HasCause, HasLoop};
ghost use Rattle.gs_link.specs.Linked.{Linked};
ghost use Rattle.gs_link.specs.Pieces.{IsNumbering};
ghost use Rattle.gs_survey.specs.Survey.{IsSurvey};
ghost use Rattle.gs_survey.specs.declared.error.LinkErr.TheVariants as errors;
ghost use Rattle.gs_verilog.specs.Circuit.{IsNetlist};

use crate::give::give_all;
use crate::pieces::{Numbering, Pieces};
use crate::renumber::{find_numbers, find_used};
use crate::stages::{Files, build_pieces};
use gs_design::{Design, Library, Parts, alternatives_are_kept};
use gs_sdc::Constraints;
use gs_spef::Wires;
use gs_survey::{LinkErr, Survey, survey};
use gs_verilog::Netlist;
use std::alloc::{AllocError, Global};

/// The nets that are kept, and what is given for each net.
pub fn find_numbering(
    alloc: Global,
    netlist: &Netlist,
    library: &Library,
    wires: &Wires,
    limits: &Constraints,
    survey: &Survey,
) -> Result<Numbering, AllocError>
    requires kept { IsNetlist netlist.now }
    requires survey { IsSurvey netlist.now library.now wires.now limits.now survey.now }
    ensures { IfOk result (λ n. IsNumbering library.now.cells netlist.now wires.now limits.now n) }
{
    let count = netlist.nets().len() as u32;
    let numbers = find_numbers(alloc, &survey.used.driven, &survey.used.read, count)?;
    let used = find_used(alloc, &survey.used.driven, &survey.used.read, count)?;
    let values = give_all(
        alloc,
        library.cells.as_slice(),
        netlist,
        wires,
        limits,
        &survey.named,
        &survey.placed.driving,
        &survey.used.gates,
    )?;
    Ok(Numbering {
        numbers,
        used,
        values,
    })
}

// The design of a library's cells and of what is built.
fn assemble(
    alloc: Global,
    library: Library,
    limits: &Constraints,
    pieces: Pieces,
) -> Result<Design, LinkErr>
    requires { IsDesign library.cells library.slew_default pieces.insts pieces.nets pieces.ends pieces.order pieces.ranks limits.now.period limits.now.max_area }
    ensures design { IfOk result (λ d. parts_of d ≡ record { cells = library.cells; slew_default = library.slew_default; leak_unit = library.leak_unit; insts = pieces.insts; nets = pieces.nets; ends = pieces.ends; order = pieces.order; ranks = pieces.ranks; period = limits.now.period; area_bound = limits.now.max_area }) }
    ensures fault { IfErr result (λ e. e ≡ errors.Mem) }
{
    let Library {
        units: _,
        leak_unit,
        slew_default,
        cells,
    } = library;
    let Pieces {
        insts,
        nets,
        ends,
        order,
        ranks,
    } = pieces;
    let parts = Parts {
        cells,
        slew_default,
        leak_unit,
        insts,
        nets,
        ends,
        order,
        ranks,
        period: limits.period(),
        area_bound: limits.max_area(),
    };
    match Design::new(alloc, parts) {
        Ok(design) => Ok(design),
        Err(_) => Err(LinkErr::Mem),
    }
}

/// The design of the four, or the first refusal.
pub fn link_four(
    alloc: Global,
    netlist: Netlist,
    library: Library,
    wires: &Wires,
    limits: &Constraints,
) -> Result<Design, LinkErr>
    requires { IsNetlist netlist }
    ensures ok { IfOk result (λ d. Linked netlist library wires.now limits.now (parts_of d)) }
    ensures err { IfErr result (λ e. HasCause netlist library wires.now limits.now e) }
{
    alternatives_are_kept();
    let _wires = wires.as_slice();
    let _period = limits.period();
    let survey = match survey(alloc, &netlist, &library, wires, limits) {
        Ok(survey) => survey,
        Err(error) => return Err(error),
    };
    let files = Files {
        netlist: &netlist,
        library: &library,
        wires,
        limits,
    };
    let numbering = find_numbering(alloc, &netlist, &library, wires, limits, &survey)?;
    let pieces = match build_pieces(alloc, &files, survey, &numbering) {
        Ok(pieces) => pieces,
        Err(error) => return Err(error),
    };
    assemble(alloc, library, limits, pieces)
}
