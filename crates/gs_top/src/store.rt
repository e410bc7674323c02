//! Storing what a command made.
ghost use Rattle.std.specs.Prelude.{◌≡◌, Some, OnErr, OnOk, IfErr};
ghost use Rattle.gs_shelf.specs.Faults.{CountsStay, NoneFell};
ghost use Rattle.gs_shelf.specs.Files.{HoldsPart, OthersStay};
ghost use Rattle.gs_top.specs.Answer.{seen};
ghost use Rattle.gs_top.specs.Plan.{AllDiffer, outputs_in};
ghost use Rattle.gs_top.specs.Store.{StoreFails, Stores, Ends};

use crate::files::JobFiles;
use crate::plan::{Plan, Text};
use crate::status::Status;
use gs_shelf::{Shelf, ShelfErr};
use std::alloc::Global;

/// Makes the file of a text hold it.
fn store_text<J: JobFiles, H: Shelf>(
    alloc: Global,
    shelf: &mut H,
    job: &J,
    text: &Text,
) -> Result<(), Status>
    ensures ok { H.tells → OnOk result (H.files shelf.new (J.outputs job.now text.now.to) ≡ Some text.now.bytes) }
    ensures err { H.tells → OnErr result (HoldsPart (J.outputs job.now text.now.to) text.now.bytes (H.files shelf.old) (H.files shelf.new)) }
    ensures others { OthersStay (J.outputs job.now text.now.to) (H.files shelf.old) (H.files shelf.new) }
    ensures said { H.said shelf.new ≡ H.said shelf.old }
    ensures later { NoneFell (H.faults shelf.old) (H.faults shelf.new) }
    ensures still { OnOk result (CountsStay (H.faults shelf.old) (H.faults shelf.new)) }
    ensures cause { IfErr result (StoreFails (J.outputs job.now) text.now.to (H.faults shelf.old) (H.faults shelf.new)) }
{
    match shelf.store(alloc, job.output(text.to), text.bytes.as_slice()) {
        Ok(()) => Ok(()),
        Err(ShelfErr::Failed) => Err(Status::WriteFault { file: text.to }),
        Err(ShelfErr::Mem) => Err(Status::OutOfMemory),
    }
}

/// Stores the texts in their order.
fn store_texts<J: JobFiles, H: Shelf>(
    alloc: Global,
    shelf: &mut H,
    job: &J,
    texts: &[Text],
) -> Result<(), Status>
    requires { AllDiffer (J.outputs job.now) (outputs_in texts.now) }
    ensures { Stores H.tells (J.outputs job.now) texts.now (seen (H.files shelf.old) (H.said shelf.old) (H.faults shelf.old)) (seen (H.files shelf.new) (H.said shelf.new) (H.faults shelf.new)) result }
{
    for text in texts {
        match store_text(alloc, shelf, job, text) {
            Ok(()) => {}
            Err(status) => return Err(status),
        }
    }
    Ok(())
}

/// Stores a plan's texts, and answers the status that the command ends with.
pub(crate) fn store_plan<J: JobFiles, H: Shelf>(
    alloc: Global,
    shelf: &mut H,
    job: &J,
    plan: Plan,
) -> Status
    requires { AllDiffer (J.outputs job.now) (outputs_in plan.texts) }
    ensures { Ends H.tells (J.outputs job.now) plan (seen (H.files shelf.old) (H.said shelf.old) (H.faults shelf.old)) (seen (H.files shelf.new) (H.said shelf.new) (H.faults shelf.new)) result }
{
    match store_texts(alloc, shelf, job, plan.texts.as_slice()) {
        Ok(()) => plan.success,
        Err(status) => status,
    }
}
