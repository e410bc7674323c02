//! The loop over the pieces of a text.
#![tactic(auto)]

ghost use Rattle.std.specs.Prelude.{◌≡◌, ◌≤◌, Err, List, length, IfErr, IfOk};
ghost use Rattle.gs_grammar.specs.Answers.{Answers, IsDecided as IsDecidedBy, IsExact, IsOnly, IsRefused};
ghost use Rattle.gs_text.specs.Bytes.{max_text};
ghost use Rattle.gs_text.specs.Cut.{pieces};
ghost use Rattle.gs_text.specs.Cutter.{Agrees, IsPlace, fault_of, left};
ghost use Rattle.gs_text.specs.Faults.{HasFault, IsDecided};
ghost use Rattle.gs_text.specs.declared.kinds.Piece.{Piece};
ghost use Rattle.gs_text.specs.declared.kinds.TextErr.{TextErr};
ghost use Rattle.gs_drive.specs.Cause.{Cause, Reads};
ghost use Rattle.gs_drive.specs.Machine.{at_end, judged, refused, stopped};
ghost use Rattle.gs_drive.specs.Pieces.{HasPieces};
ghost use Rattle.gs_drive.specs.Read.{HasRead};
ghost use Rattle.gs_drive.specs.Reader.{IsReader};
ghost use Rattle.gs_drive.specs.Tokens.{tokens};

use crate::machine::{Fault, Machine, StepErr};
use crate::refusal::Refusal;
use gs_text::{Next, Place, Style, fault_from, next_piece, text_of};
use std::alloc::Global;

/// The refusal of a text whose piece `i` isn't taken for this fault.
fn refused<R: Drop>(i: u32, fault: Fault<R>) -> Refusal<R>
    ensures { result ≡ refused i fault }
{
    match fault {
        Fault::Bad => Refusal::Bad { i },
        Fault::Broken(rule) => Refusal::Broken { i, rule },
    }
}

/// The refusal of a text whose piece `i` ends at the place and isn't taken. A fault of the text past that piece comes first, also
/// where memory ran out: to look for it takes none.
fn refusal<R: Drop>(
    style: Style,
    bytes: &[u8],
    place: Place,
    i: u32,
    error: StepErr<R>,
) -> Refusal<R>
    requires small { length bytes.now ≤ max_text }
    requires place { IsPlace bytes.now place }
    ensures value { (before : List Piece) → Agrees bytes.now before place → result ≡ stopped (fault_of (left style bytes.now before place)) i error }
    ensures fault { IsDecided style bytes.now }
{
    match fault_from(style, bytes, place) {
        Some(later) => Refusal::Text(later),
        None => match error {
            StepErr::Full => Refusal::Mem,
            StepErr::Refused(fault) => refused(i, fault),
        },
    }
}

/// What is read where the pieces end, `count` being their number.
fn finished<'a, M: Machine<'a>>(
    alloc: Global,
    machine: M,
    count: u32,
) -> Result<M::Out, Refusal<M::Rule>>
    requires keeps { M.Keeps machine }
    requires read { HasRead M.token M.step M.begin (M.state machine) }
    ensures { Answers Refusal.Mem (at_end count (M.end (M.state machine))) result }
{
    match machine.finish(alloc) {
        Ok(Some(value)) => Ok(value),
        Ok(None) => Err(Refusal::Early { i: count }),
        Err(_) => Err(Refusal::Mem),
    }
}

/// Hands the pieces of a text to a machine, one by one.
fn run_text<'a, M: Machine<'a> + Drop>(
    alloc: Global,
    style: Style,
    bytes: &'a [u8],
) -> Result<M::Out, Refusal<M::Rule>>
where
    M::Rule: Drop,
    requires small { length bytes.now ≤ max_text }
    ensures answer { Answers Refusal.Mem (judged M.step M.begin M.end (tokens M.token style bytes.now)) result }
    ensures told { (e : TextErr) → pieces style bytes.now ≡ Err e → IsRefused (Refusal.Text e) result }
    ensures fault { IsDecided style bytes.now }
    ensures pieces { IfOk result (λ _. HasPieces style bytes.now) }
{
    let mut place = Place::start();
    let mut count = 0u32;
    let mut machine = match M::start(alloc, bytes.len()) {
        Ok(machine) => machine,
        Err(_) => return Err(refusal(style, bytes, place, count, StepErr::Full)),
    };
    loop {
        match next_piece(style, bytes, place) {
            Next::Piece(piece, after) => {
                let text = text_of(bytes, &piece);
                match machine.take(alloc, piece.kind, text, piece.line) {
                    Ok(()) => {
                        place = after;
                        count += 1;
                    }
                    Err(error) => return Err(refusal(style, bytes, after, count, error)),
                }
            }
            Next::End => return finished(alloc, machine, count),
            Next::Fault(error) => return Err(Refusal::Text(error)),
        }
    }
}

/// Reads a text by a machine, piece by piece, without a list of the pieces.
///
/// # Errors
///
/// `Text` where the text isn't cut, wherever the fault stands, and also where memory runs out before it. Else the first of `Bad`
/// and `Broken` in the text's order, or `Early` where the text ends too soon. `Mem` where memory ran out.
pub fn drive<'a, M: Machine<'a> + Drop>(
    alloc: Global,
    style: Style,
    bytes: &'a [u8],
) -> Result<M::Out, Refusal<M::Rule>>
where
    M::Rule: Drop,
    requires small { length bytes.now ≤ max_text }
    requires reader { IsReader M.step M.loose M.begin M.end M.Form M.Text M.Breaks }
    // What is read is a whole text, and stands for this value.
    ensures ok { IfOk result (λ v. Reads M.Text (tokens M.token style bytes.now) v) }
    // A text is read as the one value that it stands for, unless memory runs out.
    ensures only { IsOnly Refusal.Mem (Reads M.Text (tokens M.token style bytes.now)) result }
    // Each refusal comes only by its cause,
    ensures err { IfErr result (λ e. Cause (HasFault style bytes.now) M.Form M.Text M.Breaks (tokens M.token style bytes.now) e) }
    // and where a cause stands, its refusal comes, unless memory runs out.
    ensures exact { IsExact Refusal.Mem (Cause (HasFault style bytes.now) M.Form M.Text M.Breaks (tokens M.token style bytes.now)) result }
    // A fault of the text is always told: it is never answered as want of memory.
    ensures told { (e : TextErr) → HasFault style bytes.now e → IsRefused (Refusal.Text e) result }
    // Each text is a whole one, or has a cause other than want of memory.
    ensures decided { IsDecidedBy Refusal.Mem (Reads M.Text (tokens M.token style bytes.now)) (Cause (HasFault style bytes.now) M.Form M.Text M.Breaks (tokens M.token style bytes.now)) }
    // The pieces of what is read lie in the text and stand in its order.
    ensures pieces { IfOk result (λ _. HasPieces style bytes.now) }
{
    run_text::<M>(alloc, style, bytes)
}
