//! What a designer reads after a refusal: beside the status line of a command, one to three lines that say which file, which line and
//! column, what is wrong there and what could stand there, in the form that compilers use.
//!
//! [`explain`] makes the text; it prints nothing. A refused text is fetched again through the shelf, its place is found from the number
//! that the status has, and the line is shown with a mark under the place.
//!
//! - `specs/Place.antt`: the line and the column of a place; `specs/Located.antt`: what is printed of it; `specs/Lines.antt`: where a line begins.
//! - `specs/Pieces.antt`: pieces by their number, and which bracket is open where they end.
//! - `specs/Wanted.antt`: what could stand in the place of a refused piece, by the readers' own causes.
//! - `specs/Spot.antt`: where a refusal is shown, and what is said there; `specs/Odd.antt`: files that are no texts at all.
//! - `specs/Text.antt`, `specs/Rest.antt`, `specs/Said.antt`: the sentences.
//! - `specs/Object.antt`: where the object of a refused library or design stands; `specs/Limits.antt`: of constraints and of wires.
//! - `specs/Twice.antt`: what is said of a net with two drivers, of which both are told. `specs/Words.antt`: of words that make no job.
//! - `specs/Explain.antt`: what is printed of each status.
//!
//! Cost: one fetch of the file (and one of the library, for a net with two drivers), one pass over its bytes, 16 bytes of memory for each of its pieces where pieces are counted; for a piece
//! that is refused the text before it is read once for each sort of piece of its format.
//!
//! A new reason of refusal is a line of `spot_of` and of `why_text`, a new status a line of `IsExplained` and of `explain`.
#![tactic(auto)]

#[cfg(test)]
mod again_tests;
mod brackets;
mod excerpt;
mod expected;
mod files;
mod form;
mod joined;
mod limits;
#[cfg(test)]
mod line_tests;
mod lines;
#[cfg(test)]
mod link_tests;
mod object;
mod odd;
mod place;
mod rest;
mod said;
#[cfg(test)]
mod samples;
mod spot;
#[cfg(test)]
mod status_tests;
mod statuses;
#[cfg(test)]
mod tests;
mod text;
#[cfg(test)]
mod text_tests;
mod twice;
#[cfg(test)]
mod word_tests;
mod words;

pub use excerpt::MOST;
pub use form::{Form, Wanted};
pub use said::QUOTED;
pub use spot::Spot;
pub use statuses::explain;
