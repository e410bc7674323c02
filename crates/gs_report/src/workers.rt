//! What a run did, worker by worker.
#![tactic(auto)]

ghost use Rattle.std.specs.Prelude.{◌≡◌, ℕ, ◌<◌, ◌+◌, ◌++◌, [], ◌∷◌, IfOk, OnOk, length, map, replicate, slice_index};
ghost use Rattle.std.specs.List.{flat_map, range_with_len};
ghost use Rattle.gs_move.specs.Entries.{commit_count, worker_commits};
ghost use Rattle.gs_report.specs.Report.{run_text, worker_line, worker_text};

use crate::run::Log;
use crate::words::{add_count, add_newline, add_number, add_word, ended_word};
use gs_move::Entry;
use std::alloc::{AllocError, Global};

fn commit_count(entries: &[Entry]) -> usize
    ensures { result ≡ commit_count entries.now }
{
    entries.iter().filter(|entry| entry.is_commit()).count()
}

// So many zeros.
fn zeros(alloc: Global, count: usize) -> Result<Vec<u64>, AllocError>
    ensures { IfOk result (λ v. v.items ≡ replicate count 0) }
{
    Ok(vec![in alloc; 0; count]?)
}

// Adds the entry to its worker's count, if it is a commit and the worker has one.
fn count_entry(counts: &mut [u64], entry: &Entry)
    requires { (w : ℕ) → w < length counts.old → slice_index counts.old w < 18446744073709551615 }
    ensures { (w : ℕ) → w < length counts.old → slice_index counts.new w ≡ slice_index counts.old w + worker_commits (entry.now ∷ []) w }
{
    let worker = entry.worker() as usize;
    if entry.is_commit() && worker < counts.len() {
        counts[worker] += 1;
    }
}

// How many moves each worker committed, from worker 0 on.
fn worker_counts(alloc: Global, entries: &[Entry], workers: u32) -> Result<Vec<u64>, AllocError>
    ensures { IfOk result (λ v. v.items ≡ map (worker_commits entries.now) (range_with_len 0 (workers + 1))) }
{
    let mut counts = zeros(alloc, workers as usize + 1)?;
    for entry in entries {
        count_entry(&mut counts, entry);
    }
    Ok(counts)
}

// Puts the line of a worker last.
fn add_worker(text: &mut Vec<u8>, worker: u64, commits: u64) -> Result<(), AllocError>
    ensures { OnOk result (text.new.items ≡ text.old.items ++ worker_text worker commits) }
{
    text.extend_from_slice(b"worker")?;
    add_number(text, worker)?;
    add_word(text, b"commits")?;
    add_number(text, commits)?;
    add_newline(text)
}

// Puts a line for each worker last.
fn add_workers(
    alloc: Global,
    text: &mut Vec<u8>,
    entries: &[Entry],
    workers: u32,
) -> Result<(), AllocError>
    ensures { OnOk result (text.new.items ≡ text.old.items ++ flat_map (worker_line entries.now) (range_with_len 0 (workers + 1))) }
{
    let counts = worker_counts(alloc, entries, workers)?;
    for (worker, commits) in counts.iter().enumerate() {
        add_worker(text, worker as u64, *commits)?;
    }
    Ok(())
}

/// Puts the lines of a run last.
pub fn add_run(alloc: Global, text: &mut Vec<u8>, log: &Log, workers: u32) -> Result<(), AllocError>
    ensures { OnOk result (text.new.items ≡ text.old.items ++ run_text log.now workers) }
{
    let entries = log.entries.as_slice();
    text.extend_from_slice(b"ended")?;
    add_word(text, ended_word(log.ended).as_bytes())?;
    add_newline(text)?;
    add_count(text, b"entries", entries.len() as u64)?;
    add_count(text, b"budget", log.budget)?;
    add_count(text, b"commits", commit_count(entries) as u64)?;
    add_workers(alloc, text, entries, workers)
}
