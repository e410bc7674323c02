//! The sizes that a command starts from: those of a file, or those of the netlist.
ghost use Rattle.std.specs.Prelude.{◌≡◌, ◌≤◌, IfOk, length};
ghost use Rattle.gs_design.specs.Parts.{parts_of};
ghost use Rattle.gs_design.specs.Sizes.{FitSizes, netlist_sizes};
ghost use Rattle.gs_sizes.specs.Sizes.{IsSizes};
ghost use Rattle.gs_text.specs.Bytes.{max_text};
ghost use Rattle.gs_top.specs.Answer.{Settles, Works, seen};
ghost use Rattle.gs_top.specs.Refusal.{sizes_status};
ghost use Rattle.gs_top.specs.Start.{SizesCause, from_text, start_in};

use crate::fetch::fetch_file;
use crate::files::JobFiles;
use crate::name::Name;
use crate::status::{Input, Status, TextWhy};
use gs_design::{Design, Sizes};
use gs_shelf::Shelf;
use gs_sizes::{SizesErr, read_sizes};
use std::alloc::Global;

fn sizes_status(error: SizesErr) -> Status
    ensures { result ≡ sizes_status error }
{
    let (why, place) = match error {
        SizesErr::BadLine { i } => (TextWhy::BadLine, i),
        SizesErr::Unknown { i } => (TextWhy::Unknown, i),
        SizesErr::Twice { i } => (TextWhy::Twice, i),
        SizesErr::WrongCell { i } => (TextWhy::WrongCell, i),
        SizesErr::Absent { i, .. } => (TextWhy::Absent, i),
        SizesErr::Mem => return Status::OutOfMemory,
    };
    Status::BadText {
        file: Input::From,
        why,
        place,
    }
}

/// The sizes of their bytes.
fn read_text(alloc: Global, design: &Design, bytes: &[u8]) -> Result<Sizes, Status>
    requires { length bytes.now ≤ max_text }
    ensures settled { Settles (IsSizes (parts_of design.now) bytes.now) (SizesCause (parts_of design.now) bytes.now) result }
    ensures fit { IfOk result (FitSizes design.now) }
{
    match read_sizes(alloc, design, bytes) {
        Ok(sizes) => Ok(sizes),
        Err(error) => Err(sizes_status(error)),
    }
}

/// Fetches the sizes and reads them.
fn load_sizes<J: JobFiles, H: Shelf>(
    alloc: Global,
    shelf: &mut H,
    job: &J,
    design: &Design,
) -> Result<Sizes, Status>
    ensures work { Works H.tells (from_text (parts_of design.now)) (J.inputs job.now) (seen (H.files shelf.old) (H.said shelf.old) (H.faults shelf.old)) (seen (H.files shelf.new) (H.said shelf.new) (H.faults shelf.new)) result }
    ensures fit { IfOk result (FitSizes design.now) }
{
    match fetch_file(alloc, shelf, job, Input::From) {
        Ok(bytes) => read_text(alloc, design, bytes.as_slice()),
        Err(status) => Err(status),
    }
}

/// The sizes of the netlist.
fn netlist_start(alloc: Global, design: &Design) -> Result<Sizes, Status>
    ensures settled { Settles (λ s. s ≡ netlist_sizes design.now) (λ _. ⊥) result }
    ensures fit { IfOk result (FitSizes design.now) }
{
    match design.netlist_sizes(alloc) {
        Ok(sizes) => Ok(sizes),
        Err(_) => Err(Status::OutOfMemory),
    }
}

/// The sizes of a job's file, where it names one, or else those of the netlist.
pub(crate) fn load_start<J: JobFiles, H: Shelf>(
    alloc: Global,
    shelf: &mut H,
    job: &J,
    from: &Option<Name>,
    design: &Design,
) -> Result<Sizes, Status>
    ensures work { Works H.tells (start_in from.now (parts_of design.now)) (J.inputs job.now) (seen (H.files shelf.old) (H.said shelf.old) (H.faults shelf.old)) (seen (H.files shelf.new) (H.said shelf.new) (H.faults shelf.new)) result }
    ensures fit { IfOk result (FitSizes design.now) }
{
    match from {
        Some(_) => load_sizes(alloc, shelf, job, design),
        None => netlist_start(alloc, design),
    }
}
