//! Files by name, and lines that are said, behind one trait whose every fault is counted.
//!
//! A program reads and writes files through a `Shelf`. Over memory (`MemShelf`, `NeverFails`) the contract says what
//! each file holds after each call; over the system (`HostShelf`) it says only that each fault was counted, since no
//! contract can say what a real file holds. `read_whole` fetches a whole file of at most `FILE_LIMIT` bytes, `2^28`.
//!
//! Cost: `HostShelf` opens the file for each call and reads in pieces as large as it is given; a store writes, in one piece, a new file beside the old one and renames it. `read_whole`
//! asks for pieces of 1 MiB. The shelves over memory look names up one by one: they serve tests.
//!
//! To let programs store elsewhere, write another `impl Shelf`; the clauses to meet stand in `calls.rt`.
#![tactic(auto)]

mod anew;
mod calls;
mod faultless;
mod host;
#[cfg(test)]
mod host_tests;
mod lists;
mod memory;
mod pieces;
mod reason;
mod seen;
mod target;
#[cfg(test)]
mod tests;
mod transfer;
mod whole;

pub use calls::{Op, Shelf, ShelfErr};
pub use faultless::NeverFails;
pub use host::HostShelf;
pub use lists::{Bytes, Failure, Failures, FileList, Numbers, StoredFile, append};
pub use memory::MemShelf;
pub use reason::Reason;
pub use whole::{FILE_LIMIT, FetchErr, read_whole};
