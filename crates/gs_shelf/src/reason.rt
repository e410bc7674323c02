//! Why the system refused a call.

use std::io;
use std::io::ErrorKind;

/// Why the system refused to read or to write a file, as far as it tells.
#[derive(Clone, Copy, Debug, PartialEq, Eq)]
pub enum Reason {
    /// There is no such file, or no folder in which it could stand.
    NotFound,
    /// It is a folder.
    IsFolder,
    /// The user may not read it, or not write it.
    Denied,
    /// No space is left for it.
    NoSpace,
    /// It is the same file as another one that this run has read or written.
    SameFile,
    /// Another reason.
    Other,
}

impl Reason {
    /// The reason that an error of the system tells.
    pub(crate) fn of(kind: ErrorKind) -> Reason {
        match kind {
            ErrorKind::NotFound | ErrorKind::NotADirectory => Reason::NotFound,
            ErrorKind::IsADirectory => Reason::IsFolder,
            ErrorKind::PermissionDenied | ErrorKind::ReadOnlyFilesystem => Reason::Denied,
            ErrorKind::StorageFull | ErrorKind::QuotaExceeded => Reason::NoSpace,
            _ => Reason::Other,
        }
    }
}

/// Why a call on a real file gave up.
#[derive(Clone, Copy)]
pub(crate) enum Refusal {
    /// It is a fault, for this reason.
    Fault(Reason),
    /// Memory ran out.
    Mem,
}

impl From<io::Error> for Refusal {
    fn from(error: io::Error) -> Refusal {
        match error.kind() {
            ErrorKind::OutOfMemory => Refusal::Mem,
            kind => Refusal::Fault(Reason::of(kind)),
        }
    }
}
