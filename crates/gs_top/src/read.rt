//! Reading a command's words.
ghost use Rattle.std.specs.Prelude.{◌≡◌, true, IfOk, map, string_bytes};
ghost use Rattle.gs_top.specs.Job.{are_names, check_from, check_of, check_with, has_check_form, has_from, has_size_form, is_check, is_good, is_size, job_of, size_of, size_with, names_of, passes_of, IsRead};
ghost use Rattle.gs_top.specs.declared.job.Job.{Job};

use crate::job::{CheckJob, Job, MOST_PASSES, SizeJob};
use crate::name::Name;
use crate::number::number_of;
use crate::options::{are_given, are_names, value_of};
use crate::words::Words;
use gs_quantity::Mem;
use std::alloc::Global;

/// Why words make no job.
#[derive(Clone, Copy, Debug, PartialEq, Eq)]
pub enum WordsErr {
    /// They are not of a command's form, a file's name is empty, or two names are the same.
    Usage,
    /// Memory for the names ran out.
    Mem,
}

/// How many passes the words after `size` ask for, where their number is in its range.
fn passes_of(words: &[String]) -> Option<u32>
    ensures { result ≡ passes_of (map string_bytes words.now) }
{
    number_of(MOST_PASSES, value_of(words, "--passes"))
}

/// The values of the options of `size`.
fn copy_names(alloc: Global, words: &[String]) -> Result<SizeJob, Mem>
    ensures { IfOk result (λ job. job ≡ size_with (map string_bytes words.now)) }
{
    Ok(SizeJob {
        lib: Name::copy_of(alloc, value_of(words, "--lib"))?,
        verilog: Name::copy_of(alloc, value_of(words, "--verilog"))?,
        spef: Name::copy_of(alloc, value_of(words, "--spef"))?,
        sdc: Name::copy_of(alloc, value_of(words, "--sdc"))?,
        sizes: Name::copy_of(alloc, value_of(words, "--sizes"))?,
        log: Name::copy_of(alloc, value_of(words, "--log"))?,
        report: Name::copy_of(alloc, value_of(words, "--report"))?,
        from: None,
        workers: 0,
        passes: passes_of(words).unwrap_or(0),
        budget: None,
    })
}

/// Whether the values of the options of `size` are names of files, no two the same.
fn has_names(words: &[String]) -> bool
    ensures { result ≡ are_names (names_of (Job.Size (size_with (map string_bytes words.now)))) }
{
    are_names(&[
        value_of(words, "--lib"),
        value_of(words, "--verilog"),
        value_of(words, "--spef"),
        value_of(words, "--sdc"),
        value_of(words, "--sizes"),
        value_of(words, "--log"),
        value_of(words, "--report"),
    ])
}

/// Whether the words after `size` have its form.
fn has_size_form(words: &[String]) -> bool
    ensures { result ≡ has_size_form (map string_bytes words.now) }
{
    are_given(
        &[
            "--lib",
            "--verilog",
            "--spef",
            "--sdc",
            "--sizes",
            "--log",
            "--report",
            "--passes",
        ],
        words,
    ) && passes_of(words).is_some()
}

/// Whether these are the words after `size` of a good job.
fn is_size(words: &[String]) -> bool
    ensures { result ≡ is_size (map string_bytes words.now) }
{
    has_size_form(words) && has_names(words)
}

/// The job of the words after `size`.
fn read_size(alloc: Global, words: &[String]) -> Result<Job, WordsErr>
    ensures read { IsRead (size_of (map string_bytes words.now)) result }
    ensures good { IfOk result (λ job. is_good job ≡ true) }
{
    if !is_size(words) {
        return Err(WordsErr::Usage);
    }
    match copy_names(alloc, words) {
        Ok(job) => Ok(Job::Size(job)),
        Err(_) => Err(WordsErr::Mem),
    }
}

/// Whether these are the words after `check` with sizes to start from.
fn has_from(words: &[String]) -> bool
    ensures { result ≡ has_from (map string_bytes words.now) }
{
    are_given(
        &[
            "--lib",
            "--verilog",
            "--spef",
            "--sdc",
            "--report",
            "--from",
        ],
        words,
    )
}

/// Whether the words after `check` have its form.
fn has_check_form(words: &[String]) -> bool
    ensures { result ≡ has_check_form (map string_bytes words.now) }
{
    are_given(
        &["--lib", "--verilog", "--spef", "--sdc", "--report"],
        words,
    ) || has_from(words)
}

/// The name of the sizes to start from, where the words after `check` give one.
fn copy_from(alloc: Global, words: &[String]) -> Result<Option<Name>, Mem>
    ensures { IfOk result (λ name. name ≡ check_from (map string_bytes words.now)) }
{
    if !has_from(words) {
        return Ok(None);
    }
    let name = Name::copy_of(alloc, value_of(words, "--from"))?;
    Ok(Some(name))
}

/// The values of the options of `check`.
fn copy_check(alloc: Global, words: &[String]) -> Result<CheckJob, Mem>
    ensures { IfOk result (λ job. job ≡ check_with (map string_bytes words.now)) }
{
    Ok(CheckJob {
        lib: Name::copy_of(alloc, value_of(words, "--lib"))?,
        verilog: Name::copy_of(alloc, value_of(words, "--verilog"))?,
        spef: Name::copy_of(alloc, value_of(words, "--spef"))?,
        sdc: Name::copy_of(alloc, value_of(words, "--sdc"))?,
        report: Name::copy_of(alloc, value_of(words, "--report"))?,
        from: copy_from(alloc, words)?,
    })
}

/// Whether the values of the options of `check` are names of files, no two the same.
fn has_check_names(words: &[String]) -> bool
    ensures { result ≡ is_good (Job.Check (check_with (map string_bytes words.now))) }
{
    let lib = value_of(words, "--lib");
    let verilog = value_of(words, "--verilog");
    let spef = value_of(words, "--spef");
    let sdc = value_of(words, "--sdc");
    let report = value_of(words, "--report");
    if has_from(words) {
        return are_names(&[lib, verilog, spef, sdc, report, value_of(words, "--from")]);
    }
    are_names(&[lib, verilog, spef, sdc, report])
}

/// Whether these are the words after `check` of a good job.
fn is_check(words: &[String]) -> bool
    ensures { result ≡ is_check (map string_bytes words.now) }
{
    has_check_form(words) && has_check_names(words)
}

/// The job of the words after `check`.
fn read_check(alloc: Global, words: &[String]) -> Result<Job, WordsErr>
    ensures read { IsRead (check_of (map string_bytes words.now)) result }
    ensures good { IfOk result (λ job. is_good job ≡ true) }
{
    if !is_check(words) {
        return Err(WordsErr::Usage);
    }
    match copy_check(alloc, words) {
        Ok(job) => Ok(Job::Check(job)),
        Err(_) => Err(WordsErr::Mem),
    }
}

/// The job of a command's words. Its names are copies, which take memory; whether the words make a job takes none.
pub fn read_words(alloc: Global, words: &Words) -> Result<Job, WordsErr>
    // The job of the words where they make one, unless memory runs out; and `Usage` exactly where they make none.
    ensures read { IsRead (job_of words.now) result }
    // What is made keeps the condition of a job: no name is empty, and all differ.
    ensures good { IfOk result (λ job. is_good job ≡ true) }
{
    match words.as_slice() {
        [command, words @ ..] if command.as_str() == "size" => read_size(alloc, words),
        [command, words @ ..] if command.as_str() == "check" => read_check(alloc, words),
        _ => Err(WordsErr::Usage),
    }
}
