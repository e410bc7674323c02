//! Sizes of a design as a text: a line for each instance, with its name and the name of its cell.
//!
//! - [`write_sizes`] writes the text of sizes, and its contract says which bytes: `sizes_text` of `specs/Written.antt`.
//! - [`read_sizes`] reads such a text, in any order of lines. A text stands for sizes (`IsSizes` of `specs/Sizes.antt`) or has a cause for
//!   which it is refused (`HasCause` of `specs/Refusal.antt`), and each answer is what the text calls for.
//! - [`written_sizes_are_read`] is the law that a written text stands for the sizes of which it was written, and [`each_text_is_decided`]
//!   that each text stands for one list of sizes or has one cause, and never both.
//!
//! What a text says is stated over the parts of a design, which say all of it but the copies that timing reads.
//!
//! Lines and words are `specs/Lines.antt`. What a line may say, by the lines before it, is `fault` of `specs/Sizes.antt`. What the reader
//! holds is `specs/Reader.antt`, of which the public contract says nothing.
//!
//! Reading takes one pass over the bytes. Instances are found by a map in buckets, and a cell among the alternatives of its instance.
#![tactic(auto)]

mod error;
mod law;
mod line;
mod names;
mod read;
mod write;

pub use error::SizesErr;
pub use law::{each_text_is_decided, written_sizes_are_read};
pub use read::read_sizes;
pub use write::write_sizes;
