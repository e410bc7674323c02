//! Whether one move is Fair.
#![tactic(auto)]

ghost use Rattle.std.specs.Prelude.{◌≡◌, ◌<◌, IfOk, length, true};
ghost use Rattle.gs_move.specs.Change.{change_of};
ghost use Rattle.gs_move.specs.Judge.{is_fair, is_fair_by};
ghost use Rattle.gs_move.specs.Moves.{is_move};

use crate::swept::Swept;
use gs_incr::Scratch;
use gs_move::{Judge, Move, Outcome};
use gs_quantity::{Mem, Steps};
use gs_trial::outcome_in;
use std::marker::Brand;
use std::sync::ledger::{Blank, Ledger};

// Whether an outcome lets a move be committed.
#[inline]
fn is_fair(outcome: &Outcome) -> bool
    ensures { result ≡ is_fair outcome.now }
{
    matches!(outcome, Outcome::Fair)
}

// What the judge says of a move. The counter of the trial is thrown away.
fn judged<J: Judge, L: Ledger>(
    blank: Blank,
    scratch: &mut Scratch,
    swept: &Swept<J>,
    mv: &Move,
) -> Result<Outcome, Mem>
    requires name { blank.name ≡ L.name }
    requires parts { blank.parts ≡ L.parts }
    requires some { 0 < blank.parts }
    requires nets { scratch.old.nets ≡ length swept.now.design.now.nets }
    requires mv { is_move swept.now.design.now swept.now.sizes.now mv.now ≡ true }
    ensures nets { scratch.new.nets ≡ scratch.old.nets }
    ensures outcome { IfOk result (λ o. o ≡ (J.answers swept.now.judge.now).judge (change_of swept.now.design.now swept.now.sizes.now mv.now)) }
{
    let mut steps = Steps::<L>::begin(blank);
    outcome_in(
        scratch,
        swept.design,
        swept.sizes,
        swept.timing,
        mv,
        swept.judge,
        &mut steps,
    )
}

/// Whether a move is Fair by a judge, in the memory of a [`Scratch`] for the design.
///
/// # Errors
///
/// `Mem` is want of memory.
pub fn is_fair_by<J: Judge>(scratch: &mut Scratch, swept: &Swept<J>, mv: &Move) -> Result<bool, Mem>
    requires nets { scratch.old.nets ≡ length swept.now.design.now.nets }
    requires mv { is_move swept.now.design.now swept.now.sizes.now mv.now ≡ true }
    ensures nets { scratch.new.nets ≡ scratch.old.nets }
    ensures fair { IfOk result (λ b. b ≡ is_fair_by (J.answers swept.now.judge.now) swept.now.design.now swept.now.sizes.now mv.now) }
{
    let outcome = judged::<J, Brand>(Blank::new(1), scratch, swept, mv)?;
    Ok(is_fair(&outcome))
}
