//! One driver for the readers of texts: it cuts a text and hands its pieces, one at a time, to a reader's machine. No list of the
//! pieces is kept.
//!
//! A reader is a type that implements [`Machine`]. What its texts are is said by ghost members: its tokens, its form, what a
//! whole list of tokens stands for, and the rules that a text of the form may break. [`drive`] answers what the text is read
//! as, or the one [`Refusal`]. Its contract says both ways what is read, for every reader that keeps `IsReader`:
//!
//! - `ok`, `only`: it answers a value exactly on the texts that stand for it, unless memory runs out;
//! - `err`, `exact`: each refusal comes exactly where its cause stands, unless memory runs out;
//! - `told`: a fault of the text (a string or a comment without an end) is told wherever it stands, before any piece that is
//!   refused, and also where memory ran out, since to look for it takes none;
//! - `decided`: each text stands for a value, or has a cause other than want of memory;
//! - `pieces`: the pieces of what is read lie in the text, in its order.
//!
//! In `specs/`: `Tokens` has what a piece is to a reader, `Cause` what is read and the cause of each refusal, `Reader` what is
//! proved of a machine once (`IsReader`), `Read` what a machine may rest on (`HasRead`), and `Machine` what a machine says, which
//! stands in no clause that a caller reads.
//!
//! Driving takes one pass over the bytes, and the memory that the machine takes. Where a piece is refused the rest of the text is
//! cut once more, to see whether it has a fault.
//!
//! To write one more reader: its form and its meaning as relations over lists of tokens, a machine with its `step`, the proof of
//! `IsReader` (each field is one law of the machine), and one function that gives the refusals the names of the reader. Its public call
//! is then `drive` and that function, and its clauses are the driver's, by `proofs/Answers.antt` of `gs_grammar`.
#![tactic(auto)]

mod driver;
mod law;
mod machine;
mod refusal;

pub use driver::drive;
pub use law::each_text_is_decided;
pub use machine::{Fault, Machine, StepErr};
pub use refusal::Refusal;
