//! The report and the log of a design as texts.
//!
//! - [`write_report`] writes what sizes of a design leak and every limit that their timing doesn't meet, and of a run how it ended and what
//!   each worker committed. Its contract says which bytes: `report_text` of `specs/Report.antt`.
//! - [`write_log`] writes the entries of a run in order: `log_text` of `specs/Log.antt`. That no two logs of a design have the same text is the
//!   law [`each_log_is_determined`].
//!
//! Each definition there is one line of a format, as the words of that line (`specs/Lines.antt`). What is written is computed by
//! `gs_limits`: this crate names and prints it. Times are in ps and loads in fF, the leakage is in the library's unit, each with six places.
//!
//! Writing takes time in proportion to the text, the limits of the design and the entries of the run, and memory for the text, the
//! violations and one count for each worker.
//!
//! To add a line, add its definition, write the function that appends it, and call that in `src/report.rt` or `src/writing.rt`.
#![tactic(auto)]

mod law;
mod names;
mod report;
mod run;
#[cfg(test)]
mod tests;
mod unmet;
mod words;
mod workers;
mod writing;

pub use law::each_log_is_determined;
pub use report::write_report;
pub use run::{Log, Ran};
pub use writing::write_log;
