//! Lists of numbers.

ghost use Rattle.std.specs.Prelude.{◌≡◌, ◌≤◌, true, IfOk, map, Some, None, if◌then◌else◌, option_copied};
ghost use Rattle.gs_libcell.specs.Number.{gather, number_of, numbers_of, points_by, points_in};
ghost use Rattle.gs_libcell.specs.Text.{entries_of, runs_in};

use crate::attribute::last_complex;
use crate::number::number_of;
use crate::text::{is_gap, may_continue, run_end, unfolded};
use gs_libtree::Item;
use gs_quantity::{Micro, Micros};
use gs_text::{Name, Names};
use std::alloc::{AllocError, Global};

/// The points of an axis, as a complex attribute gives them.
#[derive(Drop)]
pub enum Points {
    /// The attribute is missing.
    Absent,
    /// One of its numbers is no decimal number, or is out of range.
    Bad,
    /// The points, in order.
    Are(Micros),
}

/// Puts the numbers of a text without continuations last, up to one that is none, and says whether there was none such.
fn push_runs(tens: u8, text: &[u8], numbers: &mut Vec<Micro>) -> Result<bool, AllocError>
    requires { tens ≤ 9 }
    ensures { IfOk result (λ all. gather numbers.old.items (map (number_of tens) (runs_in true text.now)) ≡ (if all then Some numbers.new.items else None)) }
{
    let mut at = 0;
    while at < text.len() {
        if is_gap(true, text[at]) {
            at += 1;
            continue;
        }
        let end = run_end(true, text, at);
        let Some(number) = number_of(tens, &text[at..end]) else {
            return Ok(false);
        };
        numbers.push(number)?;
        at = end;
    }
    Ok(true)
}

/// The same of any text.
fn push_text(
    alloc: Global,
    tens: u8,
    text: &[u8],
    numbers: &mut Vec<Micro>,
) -> Result<bool, AllocError>
    requires { tens ≤ 9 }
    ensures { IfOk result (λ all. gather numbers.old.items (map (number_of tens) (entries_of text.now)) ≡ (if all then Some numbers.new.items else None)) }
{
    if may_continue(text) {
        let copy = unfolded(alloc, text)?;
        return push_runs(tens, copy.as_slice(), numbers);
    }
    push_runs(tens, text, numbers)
}

/// All numbers of some texts, in order; none where one is no number.
pub(crate) fn numbers_of(
    alloc: Global,
    tens: u8,
    texts: &[Name],
) -> Result<Option<Micros>, AllocError>
    requires { tens ≤ 9 }
    ensures { IfOk result (λ found. found ≡ numbers_of tens texts.now) }
{
    let mut numbers = Vec::new(alloc);
    for text in texts {
        let all = push_text(alloc, tens, text.as_bytes(), &mut numbers)?;
        if !all {
            return Ok(None);
        }
    }
    Ok(Some(Micros::from_vec(numbers)))
}

fn points_by(alloc: Global, tens: u8, texts: Option<&Names>) -> Result<Points, AllocError>
    requires { tens ≤ 9 }
    ensures { IfOk result (λ p. p ≡ points_by tens (option_copied texts.entry)) }
{
    let Some(texts) = texts else {
        return Ok(Points::Absent);
    };
    let found = numbers_of(alloc, tens, texts.as_slice())?;
    match found {
        None => Ok(Points::Bad),
        Some(numbers) => Ok(Points::Are(numbers)),
    }
}

/// The points that the complex attribute of the name gives, in millionths of a unit that is `10^tens` times the attribute's.
pub(crate) fn points_in(
    alloc: Global,
    name: &[u8],
    tens: u8,
    items: &[Item],
) -> Result<Points, AllocError>
    requires { tens ≤ 9 }
    ensures { IfOk result (λ p. p ≡ points_in name.now tens items.now) }
{
    points_by(alloc, tens, last_complex(name, items))
}
