//! Reading the library.
ghost use Rattle.std.specs.Prelude.{◌≡◌, ◌≤◌, length};
ghost use Rattle.gs_lib.specs.Library.{IsLibraryOf};
ghost use Rattle.gs_libtree.specs.Refusal.{IsLiberty};
ghost use Rattle.gs_text.specs.Bytes.{max_text};
ghost use Rattle.gs_top.specs.Answer.{Settles, Works, seen};
ghost use Rattle.gs_top.specs.Design.{LibertyCause, LibraryCause, liberty, library};
ghost use Rattle.gs_top.specs.Refusal.{lib_status, tree_status};

use crate::fetch::fetch_file;
use crate::files::JobFiles;
use crate::status::{Input, Status, TextWhy};
use gs_design::Library;
use gs_lib::{LibErr, read_library};
use gs_libtree::{Group, LibTextErr, read_tree};
use gs_shelf::Shelf;
use std::alloc::Global;

fn tree_status(error: LibTextErr) -> Status
    ensures { result ≡ tree_status error }
{
    let (why, place) = match error {
        LibTextErr::OpenString { at } => (TextWhy::OpenString, at),
        LibTextErr::OpenComment { at } => (TextWhy::OpenComment, at),
        LibTextErr::TooDeep { i } => (TextWhy::TooDeep, i),
        LibTextErr::BadPiece { i } => (TextWhy::BadPiece, i),
        LibTextErr::Mem => return Status::OutOfMemory,
    };
    Status::BadText {
        file: Input::Lib,
        why,
        place,
    }
}

fn lib_status(error: LibErr) -> Status
    ensures { result ≡ lib_status error }
{
    match error {
        LibErr::Mem => Status::OutOfMemory,
        LibErr::Missing { .. }
        | LibErr::NoUnit
        | LibErr::BadUnit
        | LibErr::TwoCells { .. }
        | LibErr::BadNumber { .. }
        | LibErr::BadTable { .. }
        | LibErr::TooMany => Status::BadLibrary(error),
    }
}

/// The tree of a library's text.
fn read_text(alloc: Global, bytes: &[u8]) -> Result<Group, Status>
    requires { length bytes.now ≤ max_text }
    ensures { Settles (IsLiberty bytes.now) (LibertyCause bytes.now) result }
{
    match read_tree(alloc, bytes) {
        Ok(root) => Ok(root),
        Err(error) => Err(tree_status(error)),
    }
}

/// Fetches the library and reads its text.
fn load_liberty<J: JobFiles, H: Shelf>(
    alloc: Global,
    shelf: &mut H,
    job: &J,
) -> Result<Group, Status>
    ensures { Works H.tells liberty (J.inputs job.now) (seen (H.files shelf.old) (H.said shelf.old) (H.faults shelf.old)) (seen (H.files shelf.new) (H.said shelf.new) (H.faults shelf.new)) result }
{
    match fetch_file(alloc, shelf, job, Input::Lib) {
        Ok(bytes) => read_text(alloc, bytes.as_slice()),
        Err(status) => Err(status),
    }
}

/// The library of its tree.
fn read_cells(alloc: Global, root: &Group) -> Result<Library, Status>
    ensures { Settles (IsLibraryOf root.now) (LibraryCause root.now) result }
{
    match read_library(alloc, root) {
        Ok(library) => Ok(library),
        Err(error) => Err(lib_status(error)),
    }
}

/// Fetches the library and reads it.
pub(crate) fn load_library<J: JobFiles, H: Shelf>(
    alloc: Global,
    shelf: &mut H,
    job: &J,
) -> Result<Library, Status>
    ensures { Works H.tells library (J.inputs job.now) (seen (H.files shelf.old) (H.said shelf.old) (H.faults shelf.old)) (seen (H.files shelf.new) (H.said shelf.new) (H.faults shelf.new)) result }
{
    match load_liberty(alloc, shelf, job) {
        Ok(root) => read_cells(alloc, &root),
        Err(status) => Err(status),
    }
}
