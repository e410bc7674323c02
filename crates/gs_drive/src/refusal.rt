//! Why a text isn't read.
#![tactic(auto)]

use gs_text::TextErr;

/// Why a text isn't read. A place `i` counts the pieces of the text from 0.
#[derive(Debug, PartialEq, Eq, Drop)]
pub enum Refusal<R> {
    /// The text isn't cut into pieces, wherever the fault stands.
    Text(TextErr),
    /// Piece `i` is the first with which no text of the form begins.
    Bad { i: u32 },
    /// Piece `i` is the first with which no text begins; it only breaks a rule.
    Broken { i: u32, rule: R },
    /// The pieces begin a text and end too early; `i` is their number.
    Early { i: u32 },
    /// Memory ran out.
    Mem,
}
