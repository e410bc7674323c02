//! Texts as pieces, and names.
//!
//! Each text format of this project is read in two steps: its bytes are cut into pieces (words, texts between quotes,
//! marks), and a reader goes over the pieces. This crate does the first step for all formats, and has the type of the
//! names that readers keep.
//!
//! - `next_piece` gives the pieces of a text one at a time, each with the `Place` past it, and takes no memory. `fault_from`
//!   says whether what is left of a text has a fault.
//! - `pieces` gives them all. They are the definition's (`specs/Cut.antt`), and beside that its contract says in the words of
//!   the format that only white, comments and continued line ends stand between the pieces, which bytes a piece of each kind
//!   is made of and where it ends, which line each piece has, and that a fault is answered exactly where a string or a comment opens and has no end.
//! - `each_text_is_cut_alone` says that these rules of the format have no other pieces than the definition's, so that a reader of
//!   the contracts need not follow how `specs/Cut.antt` finds them.
//! - `text_of` is what a piece stands for: its bytes without quotes or leading backslash.
//! - `Name` is a list of bytes that owns its memory, and `Names` a list of these.
//!
//! Cutting is one pass over the bytes; `pieces` takes memory for the pieces alone, 16 bytes each.
//!
//! To change a style, change what begins at a byte, in its file in `src` and in `specs` (`src/sdc.rt`, `specs/Sdc.antt`), and the
//! laws beside it (`proofs/SdcLaws.antt`, and the way back in `proofs/Fronts.antt`). A new style is one more such file, a variant of `Style`, and a line in each
//! definition that speaks of styles: `front`, `line_of`, `IsWord`, `IsEscaped`, `IsString`, `IsMark`, `IsSkipped`, `HasLine`, `HasFault` and `ComesIn`. The loop
//! and the induction over it speak of no style.
#![tactic(auto)]

mod cutter;
mod identifier;
mod kinds;
mod law;
mod lexer;
mod liberty;
mod runs;
mod scan;
mod sdc;
mod spef;
#[cfg(test)]
mod tests;
mod verilog;

pub use cutter::{Next, Place, fault_from, next_piece};
pub use identifier::{Name, Names};
pub use kinds::{Kind, MAX_TEXT, Piece, Style, TextErr};
pub use law::{each_command_has_one_line, each_text_is_cut_alone, each_text_is_decided};
pub use lexer::{pieces, text_of};
