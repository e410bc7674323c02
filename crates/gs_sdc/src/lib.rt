//! The SDC reader: the constraints of a design, in this project's own profile of the SDC format.
//!
//! [`read_sdc`] reads the bytes of a text and answers its [`Constraints`], or the first command that is at fault. Its contract says
//! both ways what is read: it answers `Ok` exactly on the texts of the profile, with the constraints for which the text stands, and
//! each refusal exactly where its cause stands. Want of memory is the one answer that may come at any point.
//! [`each_text_is_decided`] is the law beside it: each text stands for one set of constraints or has one cause, never both.
//!
//! - `specs/Token.antt`: what a piece is to a command; `specs/Parts.antt`: the parts of commands, and how each is spelled.
//! - `specs/Command.antt`: which parts a command has, and what a command of these parts says.
//! - `specs/Sdc.antt`: the commands of a text with what each says, the fault of a command after those before it, `SdcText`, and
//!   the cause of each refusal; `specs/Terms.antt`: what the type of constraints keeps.
//! - `specs/Front.antt`, `specs/Reads.antt`, `specs/Reader.antt`: the reader's way and what it holds, of which the public contract
//!   says nothing.
//!
//! Reading takes one pass over the bytes and one over the pieces. Ports are found by maps in buckets, so the time is that of the
//! text's length. Nothing recurses.
//!
//! One more command is a variant of `Command` with a row in each table of `src/command.rt` and `specs/Command.antt`, and what its
//! parts say (`meaning`); one more option is a variant of `Choice`; one more thing that a command may say is a variant of `Reading`
//! and an arm of `Reader::take`.
#![tactic(auto)]

mod command;
mod constraints;
mod error;
mod front;
mod given;
mod law;
mod parts;
mod read;
mod reader;
mod reading;
#[cfg(test)]
mod tests;
mod token;

pub use constraints::{Constraints, DriverSpec, Drivers, PortValue, PortValues};
pub use error::SdcErr;
pub use law::each_text_is_decided;
pub use read::read_sdc;
