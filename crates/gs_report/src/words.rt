//! Words and lines at the end of a text.
#![tactic(auto)]

ghost use Rattle.std.specs.Prelude.{◌≡◌, ◌++◌, [], ◌∷◌, OnOk, decimal};
ghost use Rattle.gs_move.specs.declared.ended.Ended.{Ended};
ghost use Rattle.gs_quantity.specs.Print.{micro_text};
ghost use Rattle.gs_report.specs.Lines.{spaced};
ghost use Rattle.gs_report.specs.Log.{ended_word};
ghost use Rattle.gs_report.specs.Report.{count_line};

use gs_move::Ended;
use gs_quantity::{Mem, Micro, print_micro};
use itoa::Buffer;
use std::alloc::{AllocError, Global};

// Puts a space last.
fn add_space(text: &mut Vec<u8>) -> Result<(), AllocError>
    ensures { OnOk result (text.new.items ≡ text.old.items ++ 32 ∷ []) }
{
    text.push(b' ')?;
    Ok(())
}

/// Puts a space and a word last.
pub fn add_word(text: &mut Vec<u8>, word: &[u8]) -> Result<(), AllocError>
    ensures { OnOk result (text.new.items ≡ text.old.items ++ spaced word.now) }
{
    add_space(text)?;
    text.extend_from_slice(word)?;
    Ok(())
}

/// Puts a space and a number last.
pub fn add_number(text: &mut Vec<u8>, number: u64) -> Result<(), AllocError>
    ensures { OnOk result (text.new.items ≡ text.old.items ++ spaced (decimal number)) }
{
    let mut digits = Buffer::new();
    add_word(text, digits.format(number).as_bytes())
}

/// Puts a space and a quantity last.
pub fn add_value(alloc: Global, text: &mut Vec<u8>, value: Micro) -> Result<(), Mem>
    ensures { OnOk result (text.new.items ≡ text.old.items ++ spaced (micro_text value)) }
{
    add_space(text)?;
    print_micro(alloc, value, text)
}

/// Puts a newline last.
pub fn add_newline(text: &mut Vec<u8>) -> Result<(), AllocError>
    ensures { OnOk result (text.new.items ≡ text.old.items ++ 10 ∷ []) }
{
    text.push(b'\n')?;
    Ok(())
}

/// Puts a line with a word and a count last.
pub fn add_count(text: &mut Vec<u8>, word: &[u8], count: u64) -> Result<(), AllocError>
    ensures { OnOk result (text.new.items ≡ text.old.items ++ count_line word.now count) }
{
    text.extend_from_slice(word)?;
    add_number(text, count)?;
    add_newline(text)
}

/// The word for how a run ended.
pub fn ended_word(ended: Ended) -> &'static str
    ensures { result.now ≡ ended_word ended }
{
    match ended {
        Ended::Settled => "settled",
        Ended::Spent => "spent",
    }
}
