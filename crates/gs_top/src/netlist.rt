//! Reading the netlist.
ghost use Rattle.std.specs.Prelude.{◌≡◌, ◌≤◌, length};
ghost use Rattle.gs_text.specs.Bytes.{max_text};
ghost use Rattle.gs_top.specs.Answer.{Settles, Works, seen};
ghost use Rattle.gs_top.specs.Design.{NetlistCause, netlist_text};
ghost use Rattle.gs_top.specs.Refusal.{verilog_status};
ghost use Rattle.gs_verilog.specs.Refusal.{IsVerilog};

use crate::fetch::fetch_file;
use crate::files::JobFiles;
use crate::status::{Input, Status, TextWhy};
use gs_shelf::Shelf;
use gs_verilog::{Netlist, VerilogErr, read_netlist};
use std::alloc::Global;

fn verilog_status(error: VerilogErr) -> Status
    ensures { result ≡ verilog_status error }
{
    let (why, place) = match error {
        VerilogErr::OpenComment { at } => (TextWhy::OpenComment, at),
        VerilogErr::BadPiece { i } => (TextWhy::BadPiece, i),
        VerilogErr::TwoNames { i } => (TextWhy::TwoNames, i),
        VerilogErr::NoEnd { i } => (TextWhy::NoEnd, i),
        VerilogErr::Mem => return Status::OutOfMemory,
    };
    Status::BadText {
        file: Input::Verilog,
        why,
        place,
    }
}

/// The netlist of its bytes.
fn read_text(alloc: Global, bytes: &[u8]) -> Result<Netlist, Status>
    requires { length bytes.now ≤ max_text }
    ensures { Settles (IsVerilog bytes.now) (NetlistCause bytes.now) result }
{
    match read_netlist(alloc, bytes) {
        Ok(netlist) => Ok(netlist),
        Err(error) => Err(verilog_status(error)),
    }
}

/// Fetches the netlist and reads it.
pub(crate) fn load_netlist<J: JobFiles, H: Shelf>(
    alloc: Global,
    shelf: &mut H,
    job: &J,
) -> Result<Netlist, Status>
    ensures { Works H.tells netlist_text (J.inputs job.now) (seen (H.files shelf.old) (H.said shelf.old) (H.faults shelf.old)) (seen (H.files shelf.new) (H.said shelf.new) (H.faults shelf.new)) result }
{
    match fetch_file(alloc, shelf, job, Input::Verilog) {
        Ok(bytes) => read_text(alloc, bytes.as_slice()),
        Err(status) => Err(status),
    }
}
