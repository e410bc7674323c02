//! The truth table of an expression.
#![tactic(auto)]

ghost use Rattle.std.specs.Prelude.{ℕ, ◌≡◌, ◌≢◌, ◌⊎◌, ◌≤◌, ◌^◌, ◌↔◌, List, length, IfErr, IfOk, MatchResult, Ok};
ghost use Rattle.gs_expr.specs.Machine.{Fails, answered, ended, met, outcome, reading, refused};
ghost use Rattle.gs_expr.specs.Parts.{IsFrontByCases};
ghost use Rattle.gs_expr.specs.Refusal.{HasCause, IsDecided};
ghost use Rattle.gs_expr.specs.Token.{Token};
ghost use Rattle.gs_expr.specs.Tree.{IsFront};
ghost use Rattle.gs_expr.specs.Truth.{IsTruth};

use crate::error::{ExprErr, StepErr};
use crate::reader::Reader;
use crate::symbol::{Symbol, symbol_of};
use crate::table::used;
use crate::token::{Front, begins};
use gs_text::Name;
use std::alloc::Global;

/// How many names a table may have.
const NAMES: usize = 6;

/// The refusal of the token at byte `at`.
fn refusal(at: u32, error: StepErr) -> ExprErr
    ensures { result ≡ refused at error }
{
    match error {
        StepErr::Bad => ExprErr::Syntax { at },
        StepErr::Deep => ExprErr::TooDeep { at },
        StepErr::Mem => ExprErr::Mem,
    }
}

/// The place of the first unknown name, after the symbol at byte `at`.
fn met(unknown: Option<u32>, symbol: Symbol, at: u32) -> Option<u32>
    ensures { result ≡ met unknown symbol at }
{
    match unknown {
        Some(place) => Some(place),
        None => {
            if symbol == Symbol::Unknown {
                return Some(at);
            }
            None
        }
    }
}

/// The answer for a whole expression with this table: the table's bits in use, where no name was unknown.
fn answered(count: usize, unknown: Option<u32>, table: u64) -> Result<u64, ExprErr>
    requires { count ≤ 6 }
    ensures { result ≡ answered count unknown table }
{
    match unknown {
        None => Ok(table & used(count)),
        Some(at) => Err(ExprErr::UnknownPin { at }),
    }
}

/// The answer at the end of the text, whose place is `end`.
fn ended(count: usize, end: u32, unknown: Option<u32>, table: Option<u64>) -> Result<u64, ExprErr>
    requires { count ≤ 6 }
    ensures { result ≡ ended count end unknown table }
{
    match table {
        Some(table) => answered(count, unknown, table),
        None => Err(ExprErr::Syntax { at: end }),
    }
}

/// Reads an expression over at most six names, token by token.
fn read(alloc: Global, bytes: &[u8], names: &[Name]) -> Result<u64, ExprErr>
    requires small { length bytes.now ≤ 2 ^ 28 }
    requires few { length names.now ≤ 6 }
    ensures { MatchResult result (λ v. reading bytes.now names.now ≡ Ok v) (λ e. Fails e (reading bytes.now names.now)) }
{
    let mut reader = Reader::new(alloc);
    let mut unknown = None;
    let mut at = 0;
    while at < bytes.len() {
        match begins(bytes[at], &bytes[at + 1..]) {
            Front::Gap => at += 1,
            Front::Found(class, len) => {
                let to = at + len;
                let symbol = symbol_of(class, &bytes[at..to], names);
                unknown = met(unknown, symbol, at as u32);
                match reader.take(symbol) {
                    Ok(()) => {}
                    Err(error) => return Err(refusal(at as u32, error)),
                }
                at = to;
            }
        }
    }
    ended(names.len(), bytes.len() as u32, unknown, reader.finish())
}

/// The truth table of the expression over the names.
///
/// Bit `i` of the table is the expression's value where name `j` has bit `j` of `i`, and of equal names the first counts.
/// Bits `2 ^ names.len()` and above are 0. It takes memory for the parentheses that are open at once, and for nothing else.
///
/// # Errors
///
/// The first that stands: `TooMany` where there are more than six names; then `TooDeep { at }` where the parenthesis at
/// byte `at` opens 65 deep, or `Syntax { at }` where the bytes before `at` begin an expression and with the token at `at`,
/// or the end, they don't, whichever comes first in the text; then `UnknownPin { at }` for the first name that isn't among
/// the names. `Mem` where memory ran out.
pub fn truth(alloc: Global, bytes: &[u8], names: &[Name]) -> Result<u64, ExprErr>
    requires { length bytes.now ≤ 2 ^ 28 }
    // What is answered is the table of the expression.
    ensures ok { IfOk result (λ table. IsTruth bytes.now names.now table) }
    // An expression with a table has that one as its answer, unless memory runs out.
    ensures only { (table : ℕ) → IsTruth bytes.now names.now table → MatchResult result (λ found. found ≡ table) (λ e. e ≡ ExprErr.Mem) }
    // Each refusal comes by its cause,
    ensures err { IfErr result (λ e. HasCause bytes.now names.now e) }
    // and each cause brings its refusal, unless memory runs out.
    ensures exact { (e : ExprErr) → e ≢ ExprErr.Mem → HasCause bytes.now names.now e → MatchResult result (λ _. ⊥) (λ f. (f ≡ e) ⊎ (f ≡ ExprErr.Mem)) }
    // Each text has a table or a cause.
    ensures decided { IsDecided bytes.now names.now }
    // What begins an expression, as the causes say it, is a front of it by the cases of its form.
    ensures fronts { (tokens : List Token) → IsFront tokens ↔ IsFrontByCases tokens }
    // The answer is a function of the text and the names, unless memory runs out; `each_text_is_decided` says of which
    // texts it is which table or refusal.
    ensures function { MatchResult result (λ v. outcome bytes.now names.now ≡ Ok v) (λ e. Fails e (outcome bytes.now names.now)) }
{
    if names.len() > NAMES {
        return Err(ExprErr::TooMany);
    }
    read(alloc, bytes, names)
}
