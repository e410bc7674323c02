//! The commands of `gate-sizer`: words in, files read and stored, one line said, one status answered.
//!
//! [`run`] does what the words say, and [`run_check`] what a job of `check` says. Their contract is the headline of the project as far as it is built: what every file
//! holds after each status, as far as the shelf tells, and which files stay on every shelf (`Leaves`); what stands behind
//! each status on every shelf (`Causes`); what was said (`Says`); and, but for a fault of the shelf or want of memory, that a
//! job whose files make what its command is to make succeeds, and that the first refusal that the words and the bytes decide
//! (`FirstRefusal`) is the answer.
//!
//! A command is a chain of stages in the order of its work, and a plan of what it stores. A stage says what it makes of the
//! bytes of the command's files, why it refuses them, and which files it comes to read. All texts of a plan are made before
//! the first is stored. Everything else is said of any command, by the kind of its status.
//!
//! - `specs/Job.antt`: the form of the words, and the condition of a job. `specs/Stage.antt`: stages and how they follow one
//!   another. `specs/Design.antt`: the stages of a design, `specs/Start.antt` those of its sizes. `specs/Command.antt`: the commands.
//! - `specs/Plan.antt`: what is stored, whole or in part. `specs/Kind.antt`: kinds of statuses, and when two refusals are one.
//!   `specs/Run.antt`: what a run leaves, why, and what it says. `specs/Law.antt`: each job is decided by the bytes of its files, and
//!   the sizes that are written are the netlist's.
//! - `specs/Line.antt`: the line of each status; `specs/Exit.antt`: its exit code; `specs/Refusal.antt`: the statuses of the
//!   readers' refusals.
//! - `specs/Answer.antt`, `specs/Store.antt`, `specs/Act.antt`: what the calls between answer, of which no public clause
//!   speaks.
//!
//! Reading costs what the readers cost; making the texts is one pass over the instances.
//!
//! A further input is a variant of `Input`, its name in the job and its line, and a stage with its call (as `netlist.rt`); a
//! further output a variant of `Output`, its name in the job and its line, and a text of a plan; a further command a case of
//! `Job` with its options, a `Command`, and two functions as in `size.rt`.
#![tactic(auto)]

mod check;
#[cfg(test)]
mod check_tests;
mod constraints;
mod fetch;
mod files;
mod from;
mod job;
#[cfg(test)]
mod job_tests;
mod law;
mod library;
#[cfg(test)]
mod library_tests;
mod line;
mod link;
mod name;
mod netlist;
mod number;
mod options;
mod plan;
mod program;
mod read;
mod recovery;
#[cfg(test)]
mod samples;
mod size;
#[cfg(test)]
mod size_tests;
mod status;
mod store;
#[cfg(test)]
mod tests;
mod wires;
mod words;

pub use job::{CheckJob, Job, MOST_PASSES, SizeJob};
pub use law::{each_job_is_decided, each_size_is_the_netlists};
pub use name::Name;
pub use program::{run, run_check, run_size_alone};
pub use read::{WordsErr, read_words};
pub use status::{Input, Output, Status, TextWhy, exit_of};
pub use words::Words;
