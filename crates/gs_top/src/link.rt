//! Linking the four files of a design.
ghost use Rattle.std.specs.Prelude.{◌≡◌};
ghost use Rattle.gs_design.specs.Parts.{parts_of};
ghost use Rattle.gs_link.specs.Linked.{Linked};
ghost use Rattle.gs_top.specs.Answer.{Settles, Works, seen, seen_as};
ghost use Rattle.gs_top.specs.Design.{LinkCause, design, linked_with};
ghost use Rattle.gs_top.specs.Refusal.{link_status};

use crate::constraints::load_constraints;
use crate::files::JobFiles;
use crate::library::load_library;
use crate::netlist::load_netlist;
use crate::status::Status;
use crate::wires::load_wires;
use gs_design::{Design, Library};
use gs_link::{LinkErr, link};
use gs_sdc::Constraints;
use gs_shelf::Shelf;
use gs_spef::Wires;
use gs_verilog::Netlist;
use std::alloc::Global;

fn link_status(error: LinkErr) -> Status
    ensures { result ≡ link_status error }
{
    match error {
        LinkErr::Mem => Status::OutOfMemory,
        LinkErr::UnknownCell { .. }
        | LinkErr::UnknownPin { .. }
        | LinkErr::OpenPin { .. }
        | LinkErr::TwoDrivers { .. }
        | LinkErr::Undriven { .. }
        | LinkErr::UnknownPort { .. }
        | LinkErr::UnknownNet { .. }
        | LinkErr::NoArc { .. }
        | LinkErr::TooMany { .. }
        | LinkErr::Loop { .. } => Status::BadDesign(error),
    }
}

/// The design of four parsed files.
fn link_files(
    alloc: Global,
    library: Library,
    netlist: Netlist,
    wires: &Wires,
    constraints: &Constraints,
) -> Result<Design, Status>
    ensures { Settles (Linked netlist library wires.now constraints.now) (LinkCause library netlist wires.now constraints.now) (seen_as parts_of result) }
{
    match link(alloc, netlist, library, wires, constraints) {
        Ok(design) => Ok(design),
        Err(error) => Err(link_status(error)),
    }
}

/// Reads the wires and the constraints of a job, and links them with its library and its netlist.
fn link_with<J: JobFiles, H: Shelf>(
    alloc: Global,
    shelf: &mut H,
    job: &J,
    library: Library,
    netlist: Netlist,
) -> Result<Design, Status>
    ensures { Works H.tells (linked_with library netlist) (J.inputs job.now) (seen (H.files shelf.old) (H.said shelf.old) (H.faults shelf.old)) (seen (H.files shelf.new) (H.said shelf.new) (H.faults shelf.new)) (seen_as parts_of result) }
{
    let wires = match load_wires(alloc, shelf, job) {
        Ok(wires) => wires,
        Err(status) => return Err(status),
    };
    let constraints = match load_constraints(alloc, shelf, job, library.units) {
        Ok(constraints) => constraints,
        Err(status) => return Err(status),
    };
    link_files(alloc, library, netlist, &wires, &constraints)
}

/// Reads a job's four files in their order, and links them.
pub(crate) fn load_design<J: JobFiles, H: Shelf>(
    alloc: Global,
    shelf: &mut H,
    job: &J,
) -> Result<Design, Status>
    ensures { Works H.tells design (J.inputs job.now) (seen (H.files shelf.old) (H.said shelf.old) (H.faults shelf.old)) (seen (H.files shelf.new) (H.said shelf.new) (H.faults shelf.new)) (seen_as parts_of result) }
{
    let library = match load_library(alloc, shelf, job) {
        Ok(library) => library,
        Err(status) => return Err(status),
    };
    let netlist = match load_netlist(alloc, shelf, job) {
        Ok(netlist) => netlist,
        Err(status) => return Err(status),
    };
    link_with(alloc, shelf, job, library, netlist)
}
