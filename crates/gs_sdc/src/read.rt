//! Reading SDC.
#![tactic(auto)]

ghost use Rattle.std.specs.Prelude.{◌≡◌, ◌≤◌, length, IfOk, IfErr};
ghost use Rattle.std.specs.List.{All};
ghost use Rattle.gs_grammar.specs.Answers.{Answers, IsDecided, IsExact, IsOnly};
ghost use Rattle.gs_lines.specs.Lines.{line_count};
ghost use Rattle.gs_sdc.specs.Reader.{answer_of, items_of, refusal_of, refused_at};
ghost use Rattle.gs_sdc.specs.Sdc.{HasCause, IsSdc, text_lines, token_lines};
ghost use Rattle.gs_text.specs.Bytes.{max_text};
ghost use Rattle.gs_text.specs.Pieces.{LiesIn};

use crate::constraints::Constraints;
use crate::error::{Fault, SdcErr, Stop};
use crate::reader::Reader;
use gs_design::Units;
use gs_lines::{line_count, run_of};
use gs_text::{Piece, Style, pieces};
use std::alloc::Global;

/// The refusal of a fault at a line.
fn refusal_of(i: u32, fault: Fault) -> SdcErr
    ensures { result ≡ refusal_of i fault }
{
    match fault {
        Fault::NotBuilt => SdcErr::NotBuilt { i },
        Fault::BadLine => SdcErr::BadLine { i },
        Fault::TwoClocks => SdcErr::TwoClocks { i },
        Fault::TwoValues => SdcErr::TwoValues { i },
    }
}

/// The refusal of a command at which the reader stops.
fn refused_at(i: u32, stop: Stop) -> SdcErr
    ensures { result ≡ refused_at i stop }
{
    match stop {
        Stop::At(fault) => refusal_of(i, fault),
        Stop::Mem => SdcErr::Mem,
    }
}

/// Reads the pieces of a text that has `last` lines.
fn read_pieces<'a>(
    alloc: Global,
    bytes: &'a [u8],
    units: Units,
    pieces: &'a [Piece],
    last: u32,
) -> Result<Constraints, SdcErr>
    requires few { length pieces.now ≤ max_text }
    requires inside { All (LiesIn (length bytes.now)) pieces.now }
    ensures { Answers SdcErr.Mem (answer_of last (items_of units (token_lines bytes.now pieces.now))) result }
{
    let mut reader = Reader::new(alloc, pieces.len() / 16 + 1)?;
    let mut at = 0;
    while at < pieces.len() {
        let number = pieces[at].line;
        let count = run_of(number, &pieces[at..]);
        match reader.read(alloc, bytes, units, &pieces[at..at + count]) {
            Ok(()) => at += count,
            Err(stop) => return Err(refused_at(number, stop)),
        }
    }
    reader.finish(last)
}

/// Reads a text by its pieces.
fn read_text(alloc: Global, bytes: &[u8], units: Units) -> Result<Constraints, SdcErr>
    requires { length bytes.now ≤ max_text }
    ensures { Answers SdcErr.Mem (answer_of (line_count bytes.now) (items_of units (text_lines bytes.now))) result }
{
    match pieces(alloc, Style::Sdc, bytes) {
        Ok(found) => read_pieces(
            alloc,
            bytes,
            units,
            found.as_slice(),
            line_count(bytes) as u32,
        ),
        Err(_) => Err(SdcErr::Mem),
    }
}

/// Reads SDC, in this project's profile of the format, with values in these units.
///
/// # Errors
///
/// The first command at fault decides, and on one command the order is `NotBuilt`, `BadLine`, `TwoClocks`, `TwoValues`. `NoClock`
/// where no command is at fault and none is `create_clock`. `Mem` where memory ran out.
pub fn read_sdc(alloc: Global, bytes: &[u8], units: Units) -> Result<Constraints, SdcErr>
    requires { length bytes.now ≤ max_text }
    // What is read is SDC, and stands for these constraints.
    ensures ok { IfOk result (IsSdc units bytes.now) }
    // A text is read as the one set of constraints for which it stands, unless memory runs out.
    ensures only { IsOnly SdcErr.Mem (IsSdc units bytes.now) result }
    // Each refusal comes only by its cause,
    ensures err { IfErr result (HasCause units bytes.now) }
    // and where a cause stands, its refusal comes, unless memory runs out.
    ensures exact { IsExact SdcErr.Mem (HasCause units bytes.now) result }
    // Each text is SDC of this profile, or there is a cause.
    ensures decided { IsDecided SdcErr.Mem (IsSdc units bytes.now) (HasCause units bytes.now) }
{
    let read = read_text(alloc, bytes, units);
    read
}
