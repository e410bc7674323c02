//! The line that is said of a status.
ghost use Rattle.std.specs.Prelude.{◌≡◌, ◌++◌, IfOk, OnOk, codes, decimal};
ghost use Rattle.gs_quantity.specs.Print.{micro_text};
ghost use Rattle.gs_report.specs.Log.{ended_word};
ghost use Rattle.gs_top.specs.Line.{done_line, input_name, lib_name, line_of, link_name, why_name, write_line};

use crate::status::{Input, Output, Status, TextWhy};
use gs_lib::LibErr;
use gs_link::LinkErr;
use gs_move::Ended;
use gs_quantity::{Mem, Micro, print_micro};
use itoa::Buffer;
use std::alloc::{AllocError, Global};

/// The line of words that make no job.
pub(crate) const USAGE: &[u8] = b"usage: gate-sizer size, check, audit or gen, with options\n";

fn input_name(file: Input) -> &'static str
    ensures { result.now ≡ input_name file }
{
    match file {
        Input::Lib => "library",
        Input::Verilog => "netlist",
        Input::Spef => "spef",
        Input::Sdc => "sdc",
        Input::From => "from",
    }
}

fn why_name(why: TextWhy) -> &'static str
    ensures { result.now ≡ why_name why }
{
    match why {
        TextWhy::OpenString => "openstring",
        TextWhy::OpenComment => "opencomment",
        TextWhy::TooDeep => "toodeep",
        TextWhy::BadPiece => "badpiece",
        TextWhy::TwoNames => "twonames",
        TextWhy::NoEnd => "noend",
        TextWhy::BadLine => "badline",
        TextWhy::Distributed => "distributed",
        TextWhy::UnknownIndex => "unknownindex",
        TextWhy::TwoNets => "twonets",
        TextWhy::NotBuilt => "notbuilt",
        TextWhy::TwoClocks => "twoclocks",
        TextWhy::TwoValues => "twovalues",
        TextWhy::NoClock => "noclock",
        TextWhy::Unknown => "unknown",
        TextWhy::Twice => "twice",
        TextWhy::WrongCell => "wrongcell",
        TextWhy::Absent => "absent",
    }
}

fn lib_name(error: &LibErr) -> &'static str
    ensures { result.now ≡ lib_name error.now }
{
    match error {
        LibErr::Missing { .. } => "missing",
        LibErr::NoUnit => "nounit",
        LibErr::BadUnit => "badunit",
        LibErr::TwoCells { .. } => "twocells",
        LibErr::BadNumber { .. } => "badnumber",
        LibErr::BadTable { .. } => "badtable",
        LibErr::TooMany => "toomany",
        LibErr::Mem => "mem",
    }
}

fn link_name(error: &LinkErr) -> &'static str
    ensures { result.now ≡ link_name error.now }
{
    match error {
        LinkErr::UnknownCell { .. } => "unknowncell",
        LinkErr::UnknownPin { .. } => "unknownpin",
        LinkErr::OpenPin { .. } => "openpin",
        LinkErr::TwoDrivers { .. } => "twodrivers",
        LinkErr::Undriven { .. } => "undriven",
        LinkErr::UnknownPort { .. } => "unknownport",
        LinkErr::UnknownNet { .. } => "unknownnet",
        LinkErr::NoArc { .. } => "noarc",
        LinkErr::TooMany { .. } => "toomany",
        LinkErr::Loop { .. } => "loop",
        LinkErr::Mem => "mem",
    }
}

/// The line of a fault of writing, or nothing for the console's.
fn write_line(file: Output) -> &'static str
    ensures { result.now ≡ write_line file }
{
    match file {
        Output::Sizes => "cannot write sizes\n",
        Output::Log => "cannot write log\n",
        Output::Report => "cannot write report\n",
        Output::Console => "",
    }
}

fn ended_word(ended: Ended) -> &'static str
    ensures { result.now ≡ ended_word ended }
{
    match ended {
        Ended::Settled => "settled",
        Ended::Spent => "spent",
    }
}

/// A word, with a space on either side, and a count.
fn add_count(line: &mut Vec<u8>, word: &str, count: u64) -> Result<(), AllocError>
    ensures { OnOk result (line.new.items ≡ line.old.items ++ word.now ++ decimal count) }
{
    let mut digits = Buffer::new();
    line.extend_from_slice(word.as_bytes())?;
    line.extend_from_slice(digits.format(count).as_bytes())?;
    Ok(())
}

/// `leakage` and the amount, with a space before each.
fn add_leakage(alloc: Global, line: &mut Vec<u8>, leakage: Micro) -> Result<(), Mem>
    ensures { OnOk result (line.new.items ≡ line.old.items ++ codes " leakage " ++ micro_text leakage) }
{
    line.extend_from_slice(b" leakage ")?;
    print_micro(alloc, leakage, line)
}

/// `done`, how the run ended, the leakage, how many limits aren't met, and how many commits there are.
fn done_line(
    alloc: Global,
    ended: Ended,
    violations: u64,
    leakage: Micro,
    commits: u64,
) -> Result<Vec<u8>, Mem>
    ensures { IfOk result (λ v. v.items ≡ done_line ended violations leakage commits) }
{
    let mut line = Vec::from_slice(alloc, b"done ")?;
    line.extend_from_slice(ended_word(ended).as_bytes())?;
    add_leakage(alloc, &mut line, leakage)?;
    add_count(&mut line, " violations ", violations)?;
    add_count(&mut line, " commits ", commits)?;
    line.extend_from_slice(b"\n")?;
    Ok(line)
}

/// `checked`, the leakage, and how many limits aren't met.
fn checked_line(alloc: Global, violations: u64, leakage: Micro) -> Result<Vec<u8>, Mem>
    ensures { IfOk result (λ v. v.items ≡ codes "checked leakage " ++ micro_text leakage ++ codes " violations " ++ decimal violations ++ codes "\n") }
{
    let mut digits = Buffer::new();
    let mut line = Vec::from_slice(alloc, b"checked leakage ")?;
    print_micro(alloc, leakage, &mut line)?;
    line.extend_from_slice(b" violations ")?;
    line.extend_from_slice(digits.format(violations).as_bytes())?;
    line.extend_from_slice(b"\n")?;
    Ok(line)
}

/// What happened, and to which file or why.
fn file_line(alloc: Global, what: &str, name: &str) -> Result<Vec<u8>, AllocError>
    ensures { IfOk result (λ v. v.items ≡ what.now ++ name.now ++ codes "\n") }
{
    let mut line = Vec::from_slice(alloc, what.as_bytes())?;
    line.extend_from_slice(name.as_bytes())?;
    line.push(b'\n')?;
    Ok(line)
}

/// Which text is refused, why, and where.
fn bad_line(alloc: Global, name: &str, why: &str, place: u32) -> Result<Vec<u8>, AllocError>
    ensures { IfOk result (λ v. v.items ≡ codes "bad " ++ name.now ++ codes " " ++ why.now ++ codes " at " ++ decimal place ++ codes "\n") }
{
    let mut digits = Buffer::new();
    let mut line = Vec::from_slice(alloc, b"bad ")?;
    line.extend_from_slice(name.as_bytes())?;
    line.push(b' ')?;
    line.extend_from_slice(why.as_bytes())?;
    line.extend_from_slice(b" at ")?;
    line.extend_from_slice(digits.format(place).as_bytes())?;
    line.push(b'\n')?;
    Ok(line)
}

/// The status's line with its newline, or nothing for a status that has none.
pub(crate) fn line_of(alloc: Global, status: &Status) -> Result<Vec<u8>, Mem>
    ensures { IfOk result (λ v. v.items ≡ line_of status.now) }
{
    let line = match status {
        Status::Done {
            ended,
            violations,
            leakage,
            commits,
        } => done_line(alloc, *ended, *violations, *leakage, *commits)?,
        Status::Checked {
            violations,
            leakage,
        } => checked_line(alloc, *violations, *leakage)?,
        Status::Usage => Vec::from_slice(alloc, USAGE)?,
        Status::ReadFault { file } => file_line(alloc, "cannot read ", input_name(*file))?,
        Status::TooLarge { file } => file_line(alloc, "too large ", input_name(*file))?,
        Status::BadText { file, why, place } => {
            bad_line(alloc, input_name(*file), why_name(*why), *place)?
        }
        Status::BadLibrary(error) => file_line(alloc, "bad library ", lib_name(error))?,
        Status::BadDesign(error) => file_line(alloc, "bad design ", link_name(error))?,
        Status::WriteFault { file } => Vec::from_slice(alloc, write_line(*file).as_bytes())?,
        Status::OutOfMemory => Vec::new(alloc),
    };
    Ok(line)
}
