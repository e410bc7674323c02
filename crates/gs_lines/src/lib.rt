//! A text as lines, for the readers of the formats that go line by line or command by command.
//!
//! `specs/Lines.antt` says what the lines of a text are: its pieces, put together by the number of their line; a line without a piece is
//! none; and how many lines a text has by its newlines. `line_count` and `run_of` count the two. `proofs/Lines.antt` has the laws by
//! which a reader goes from one line to the next. **The laws are meant to be imported by the proofs of the readers.** How lines are
//! judged one after another stands in `gs_grammar` (`Judged`).
#![tactic(auto)]

mod count;

pub use count::{line_count, run_of};
