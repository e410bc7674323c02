//! Why a text is no Liberty text.
#![tactic(auto)]

ghost use Rattle.std.specs.Prelude.{◌≡◌};
ghost use Rattle.gs_drive.specs.declared.machine.Fault.{Fault};
ghost use Rattle.gs_drive.specs.declared.machine.StepErr.{StepErr};
ghost use Rattle.gs_libtree.specs.Reading.{refusal_of};

use gs_drive::{Fault, Refusal, StepErr};
use gs_text::TextErr;

/// Why a text is no Liberty text. A place `i` counts the pieces of the text from 0, and `at` its bytes from 0.
#[derive(Debug, PartialEq, Eq, Drop)]
pub enum LibTextErr {
    /// The string that begins with the quote at byte `at` has no end.
    OpenString { at: u32 },
    /// The comment that begins at byte `at` has no end.
    OpenComment { at: u32 },
    /// Piece `i` opens a group that is 65 deep.
    TooDeep { i: u32 },
    /// Piece `i` is the first with which no text of the form begins; or the pieces end too early, and `i` is their number.
    BadPiece { i: u32 },
    /// Memory ran out.
    Mem,
}

/// A rule that a text of the form may break.
#[derive(Debug, PartialEq, Eq, Drop)]
pub enum Rule {
    /// Groups are at most 64 deep.
    TooDeep,
}

/// Why a reader can't go on from a token.
pub type Stop = StepErr<Rule>;

/// A token with which no text of the form goes on.
pub fn bad() -> Stop
    ensures { result ≡ StepErr.Refused Fault.Bad }
{
    StepErr::Refused(Fault::Bad)
}

/// A Liberty text's refusal for the driver's. Where the text ends too early, its end is the bad piece.
pub fn refusal_of(refusal: Refusal<Rule>) -> LibTextErr
    ensures { result ≡ refusal_of refusal }
{
    match refusal {
        Refusal::Text(TextErr::OpenString { at }) => LibTextErr::OpenString { at },
        Refusal::Text(TextErr::OpenComment { at }) => LibTextErr::OpenComment { at },
        Refusal::Broken { i, .. } => LibTextErr::TooDeep { i },
        Refusal::Bad { i } | Refusal::Early { i } => LibTextErr::BadPiece { i },
        Refusal::Text(TextErr::Mem) | Refusal::Mem => LibTextErr::Mem,
    }
}
