//! Reading the constraints.
ghost use Rattle.std.specs.Prelude.{◌≡◌, ◌≤◌, length};
ghost use Rattle.gs_sdc.specs.Sdc.{IsSdc};
ghost use Rattle.gs_text.specs.Bytes.{max_text};
ghost use Rattle.gs_top.specs.Answer.{Settles, Works, seen};
ghost use Rattle.gs_top.specs.Design.{SdcCause, sdc_text};
ghost use Rattle.gs_top.specs.Refusal.{sdc_status};

use crate::fetch::fetch_file;
use crate::files::JobFiles;
use crate::status::{Input, Status, TextWhy};
use gs_design::Units;
use gs_sdc::{Constraints, SdcErr, read_sdc};
use gs_shelf::Shelf;
use std::alloc::Global;

fn sdc_status(error: SdcErr) -> Status
    ensures { result ≡ sdc_status error }
{
    let (why, place) = match error {
        SdcErr::NotBuilt { i } => (TextWhy::NotBuilt, i),
        SdcErr::BadLine { i } => (TextWhy::BadLine, i),
        SdcErr::TwoClocks { i } => (TextWhy::TwoClocks, i),
        SdcErr::TwoValues { i } => (TextWhy::TwoValues, i),
        SdcErr::NoClock { i } => (TextWhy::NoClock, i),
        SdcErr::Mem => return Status::OutOfMemory,
    };
    Status::BadText {
        file: Input::Sdc,
        why,
        place,
    }
}

/// The constraints of their bytes, with numbers in these units.
fn read_text(alloc: Global, bytes: &[u8], units: Units) -> Result<Constraints, Status>
    requires { length bytes.now ≤ max_text }
    ensures { Settles (IsSdc units bytes.now) (SdcCause units bytes.now) result }
{
    match read_sdc(alloc, bytes, units) {
        Ok(constraints) => Ok(constraints),
        Err(error) => Err(sdc_status(error)),
    }
}

/// Fetches the constraints and reads them, with numbers in the library's units.
pub(crate) fn load_constraints<J: JobFiles, H: Shelf>(
    alloc: Global,
    shelf: &mut H,
    job: &J,
    units: Units,
) -> Result<Constraints, Status>
    ensures { Works H.tells (sdc_text units) (J.inputs job.now) (seen (H.files shelf.old) (H.said shelf.old) (H.faults shelf.old)) (seen (H.files shelf.new) (H.said shelf.new) (H.faults shelf.new)) result }
{
    match fetch_file(alloc, shelf, job, Input::Sdc) {
        Ok(bytes) => read_text(alloc, bytes.as_slice(), units),
        Err(status) => Err(status),
    }
}
