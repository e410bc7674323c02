//! What is printed of statuses that no text shows: of files that are too large, cannot be used or have changed since the run read them, and of
//! want of memory.

use crate::samples::{check_words, of_library, of_wires};
use crate::status_tests::row_says;
use crate::statuses::explain;
use gs_shelf::{Bytes, FileList, NeverFails, Reason};
use gs_survey::LinkErr;
use gs_text::Name;
use gs_top::{Input, Output, Status, TextWhy};
use std::alloc::Global;
use std::test::Fail;

/// A library that was refused at a piece.
fn refused_library() -> Status {
    Status::BadText {
        file: Input::Lib,
        why: TextWhy::BadPiece,
        place: 3,
    }
}

/// Wires of a net that the netlist lacked.
fn unknown_net(alloc: Global) -> Result<Status, Fail> {
    let name = Name::copy_of(alloc, b"q")?;
    Ok(Status::BadDesign(LinkErr::UnknownNet { name }))
}

#[test]
fn files_that_have_changed(rt: HostRuntime) -> Result<(), Fail> {
    let alloc = rt.alloc();
    let words = check_words(alloc)?;
    let open = of_library("library \"x", "n.lib: the text is not of its form\n");
    assert!(rt; row_says(alloc, &words, &refused_library(), open)?);
    let twice = of_wires(
        "*C_UNIT 1 FF\n*D_NET q 1\n*END\n*D_NET q 1\n*END\n",
        "n.spef: the netlist has no net q\n",
    );
    assert!(rt; row_says(alloc, &words, &unknown_net(alloc)?, twice)?);
    Ok(())
}

/// What is printed of a status where every file is lost.
fn said_of(alloc: Global, status: &Status, reason: Reason) -> Result<Vec<u8>, Fail> {
    let mut shelf = NeverFails {
        files: FileList::new(alloc),
        said: Bytes::empty(alloc),
    };
    Ok(explain(
        alloc,
        &check_words(alloc)?,
        status,
        Some(reason),
        &mut shelf,
    )?)
}

fn plain() -> [(Status, Reason, &'static str); 6] {
    [
        (
            Status::TooLarge {
                file: Input::Verilog,
            },
            Reason::Other,
            "n.v: the file has more than 268435456 bytes\n",
        ),
        (
            Status::ReadFault { file: Input::Sdc },
            Reason::IsFolder,
            "n.sdc: the file cannot be read: it is a folder\n",
        ),
        (
            Status::ReadFault { file: Input::From },
            Reason::Denied,
            "n.from: the file cannot be read: permission denied\n",
        ),
        (
            Status::WriteFault {
                file: Output::Report,
            },
            Reason::SameFile,
            "n.rpt: the file cannot be written: it is the same file as another one of this run\n",
        ),
        (
            Status::WriteFault {
                file: Output::Console,
            },
            Reason::NoSpace,
            "standard output: the file cannot be written: no space is left\n",
        ),
        (
            Status::OutOfMemory,
            Reason::Other,
            "gate-sizer: memory ran out\n",
        ),
    ]
}

#[test]
fn statuses_without_a_text(rt: HostRuntime) -> Result<(), Fail> {
    for (status, reason, printed) in plain() {
        let text = said_of(rt.alloc(), &status, reason)?;
        assert!(rt; text.as_slice() == printed.as_bytes(), "{}", printed);
    }
    Ok(())
}
