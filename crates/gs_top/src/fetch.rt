//! Fetching a file that a command reads.
ghost use Rattle.std.specs.Prelude.{◌≡◌, ◌≤◌, IfOk, length};
ghost use Rattle.gs_top.specs.Answer.{Works, seen};
ghost use Rattle.gs_top.specs.Refusal.{fetch_status};
ghost use Rattle.gs_top.specs.Stage.{fetch};

use crate::files::JobFiles;
use crate::status::{Input, Status};
use gs_shelf::{Bytes, FILE_LIMIT, FetchErr, Shelf, read_whole};
use std::alloc::Global;

fn fetch_status(file: Input, error: FetchErr) -> Status
    ensures { result ≡ fetch_status file error }
{
    match error {
        FetchErr::Failed => Status::ReadFault { file },
        FetchErr::TooLarge => Status::TooLarge { file },
        FetchErr::Mem => Status::OutOfMemory,
    }
}

/// The bytes of a job's file.
pub(crate) fn fetch_file<J: JobFiles, H: Shelf>(
    alloc: Global,
    shelf: &mut H,
    job: &J,
    file: Input,
) -> Result<Bytes, Status>
    ensures work { Works H.tells (fetch file) (J.inputs job.now) (seen (H.files shelf.old) (H.said shelf.old) (H.faults shelf.old)) (seen (H.files shelf.new) (H.said shelf.new) (H.faults shelf.new)) result }
    ensures within { IfOk result (λ bytes. length bytes ≤ FILE_LIMIT) }
{
    match read_whole(alloc, shelf, job.input(file)) {
        Ok(bytes) => Ok(Bytes::from_vec(bytes)),
        Err(error) => Err(fetch_status(file, error)),
    }
}
