//! Reading the wires.
ghost use Rattle.std.specs.Prelude.{◌≡◌, ◌≤◌, length};
ghost use Rattle.gs_spef.specs.Spef.{IsSpef};
ghost use Rattle.gs_text.specs.Bytes.{max_text};
ghost use Rattle.gs_top.specs.Answer.{Settles, Works, seen};
ghost use Rattle.gs_top.specs.Design.{SpefCause, spef_text};
ghost use Rattle.gs_top.specs.Refusal.{spef_status};

use crate::fetch::fetch_file;
use crate::files::JobFiles;
use crate::status::{Input, Status, TextWhy};
use gs_shelf::Shelf;
use gs_spef::{SpefErr, Wires, read_spef};
use std::alloc::Global;

fn spef_status(error: SpefErr) -> Status
    ensures { result ≡ spef_status error }
{
    let (why, place) = match error {
        SpefErr::BadLine { i } => (TextWhy::BadLine, i),
        SpefErr::Distributed { i } => (TextWhy::Distributed, i),
        SpefErr::UnknownIndex { i } => (TextWhy::UnknownIndex, i),
        SpefErr::TwoNets { i } => (TextWhy::TwoNets, i),
        SpefErr::Mem => return Status::OutOfMemory,
    };
    Status::BadText {
        file: Input::Spef,
        why,
        place,
    }
}

/// The wires of their bytes.
fn read_text(alloc: Global, bytes: &[u8]) -> Result<Wires, Status>
    requires { length bytes.now ≤ max_text }
    ensures { Settles (IsSpef bytes.now) (SpefCause bytes.now) result }
{
    match read_spef(alloc, bytes) {
        Ok(wires) => Ok(wires),
        Err(error) => Err(spef_status(error)),
    }
}

/// Fetches the wires and reads them.
pub(crate) fn load_wires<J: JobFiles, H: Shelf>(
    alloc: Global,
    shelf: &mut H,
    job: &J,
) -> Result<Wires, Status>
    ensures { Works H.tells spef_text (J.inputs job.now) (seen (H.files shelf.old) (H.said shelf.old) (H.faults shelf.old)) (seen (H.files shelf.new) (H.said shelf.new) (H.faults shelf.new)) result }
{
    match fetch_file(alloc, shelf, job, Input::Spef) {
        Ok(bytes) => read_text(alloc, bytes.as_slice()),
        Err(status) => Err(status),
    }
}
