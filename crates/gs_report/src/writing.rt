//! Writing a log.
#![tactic(auto)]

ghost use Rattle.std.specs.Prelude.{◌≡◌, ◌++◌, IfOk, OnOk};
ghost use Rattle.gs_move.specs.Entries.{AreEntriesOf, IsMoveOf, move_of};
ghost use Rattle.gs_report.specs.Log.{end_line, entry_line, entry_word, log_text};

use crate::run::Log;
use crate::words::{add_newline, add_number, add_word, ended_word};
use gs_design::Design;
use gs_move::Entry;
use gs_quantity::Mem;
use std::alloc::{AllocError, Global};

fn entry_word(entry: &Entry) -> &'static str
    ensures { result.now ≡ entry_word entry.now }
{
    match entry {
        Entry::Commit { .. } => "c",
        Entry::Reject { .. } => "r",
    }
}

// Puts the line of an entry last.
fn add_entry(text: &mut Vec<u8>, design: &Design, entry: &Entry) -> Result<(), AllocError>
    requires { IsMoveOf design.now (move_of entry.now) }
    ensures { OnOk result (text.new.items ≡ text.old.items ++ entry_line design.now entry.now) }
{
    let mv = entry.mv();
    let cell = design.cell(design.insts.cell(mv.inst, mv.place));
    text.extend_from_slice(entry_word(entry).as_bytes())?;
    add_number(text, entry.worker() as u64)?;
    add_word(text, design.insts.name(mv.inst).as_bytes())?;
    add_word(text, cell.name.as_bytes())?;
    add_newline(text)
}

// Puts the last line last.
fn add_end(text: &mut Vec<u8>, log: &Log) -> Result<(), AllocError>
    ensures { OnOk result (text.new.items ≡ text.old.items ++ end_line log.now) }
{
    text.extend_from_slice(b"end")?;
    add_word(text, ended_word(log.ended).as_bytes())?;
    add_number(text, log.entries.len() as u64)?;
    add_number(text, log.budget)?;
    add_newline(text)
}

/// The text of a log: a line with the version; for each entry in order a line with `c` for a commit or `r` for a reject, the worker, the
/// instance and the cell that it was to take; and a last line with how the run ended, how many entries it made and how many it was allowed.
///
/// # Errors
///
/// `Mem` is want of memory.
pub fn write_log(alloc: Global, design: &Design, log: &Log) -> Result<Vec<u8>, Mem>
    requires { AreEntriesOf design.now log.now.entries }
    ensures { IfOk result (λ v. v.items ≡ log_text design.now log.now) }
{
    let mut text = Vec::from_slice(alloc, b"gate-sizing-log 1\n")?;
    for entry in log.entries.as_slice() {
        add_entry(&mut text, design, entry)?;
    }
    add_end(&mut text, log)?;
    Ok(text)
}
