//! What a text is cut into.
#![tactic(auto)]

use std::alloc::AllocFailed;

/// How many bytes a text may have, 256 MiB; contracts call it `max_text`.
pub const MAX_TEXT: usize = 1 << 28;

/// The format whose rules say what the pieces of a text are.
#[derive(Clone, Copy, Debug, PartialEq, Eq)]
pub enum Style {
    /// Structural Verilog, after IEEE 1364-2005.
    Verilog,
    /// Liberty, after the Liberty reference manual.
    Lib,
    /// SPEF, after IEEE 1481-1999.
    Spef,
    /// Constraints in the SDC format.
    Sdc,
}

/// What a piece is.
#[derive(Clone, Copy, Debug, PartialEq, Eq)]
pub enum Kind {
    /// A run of the bytes that make words in the style.
    Word,
    /// A backslash and the bytes up to white.
    Escaped,
    /// What stands between two double quotes, with these.
    Text,
    /// One byte of its own, as a parenthesis.
    Mark,
}

/// A piece of a text: the bytes from place `from` up to, and without, place `to`. Places count from 0, lines from 1.
#[derive(Clone, Copy, Debug, PartialEq, Eq)]
pub struct Piece {
    pub kind: Kind,
    pub from: u32,
    pub to: u32,
    /// The line on which the piece begins; in style Sdc the first line of its command.
    pub line: u32,
}

/// Why a text isn't cut.
#[derive(Debug, PartialEq, Eq, Drop)]
pub enum TextErr {
    /// The string that begins with the quote at byte `at` has no end.
    OpenString { at: u32 },
    /// The comment that begins at byte `at` has no end.
    OpenComment { at: u32 },
    /// Memory ran out.
    Mem,
}

impl<T: Drop> From<AllocFailed<T>> for TextErr {
    ghost use Rattle.std.specs.Prelude.{◌≡◌};
    ghost use Rattle.gs_text.specs.declared.kinds.TextErr.{TextErr};

    ghost from_gives = { λ _ error. error ≡ TextErr.Mem };

    fn from(_error: AllocFailed<T>) -> TextErr {
        TextErr::Mem
    }
}
