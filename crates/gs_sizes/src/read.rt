//! Reading sizes.
#![tactic(auto)]

ghost use Rattle.std.specs.Prelude.{◌≡◌, ◌<◌, ◌≤◌, ◌^◌, ◌∷◌, ℕ, List, Err, None, Some, length, replicate, slice_index_or, slice_set, IfErr, IfOk, OnOk};
ghost use Rattle.gs_design.specs.Parts.{parts_of};
ghost use Rattle.gs_design.specs.Sizes.{FitSizes};
ghost use Rattle.gs_grammar.specs.Answers.{Answers, Fails, IsDecided, IsExact, IsOnly};
ghost use Rattle.gs_names.specs.Names.{HasBuckets, find};
ghost use Rattle.gs_design.specs.Insts.{inst_at};
ghost use Rattle.gs_sizes.specs.declared.error.SizesErr.{SizesErr};
ghost use Rattle.gs_sizes.specs.Lines.{Row, row_of, rows};
ghost use Rattle.gs_sizes.specs.Reader.{GivesPlace, Holds, Knows, Stops, ended, reading, refusal_of, refused_at};
ghost use Rattle.gs_sizes.specs.Refusal.{HasCause};
ghost use Rattle.gs_sizes.specs.Sizes.{IsSizes, fault, inst_fault, inst_named, place_fault, place_named};

use crate::error::{Fault, SizesErr, Stop};
use crate::line::{first_word, line_at, without_return};
use crate::names::{inst_names, place_named};
use gs_design::{Design, InstId, Sizes};
use gs_names::NameMap;
use gs_text::Name;
use std::alloc::{AllocError, Global};

// Gives an instance the cell of a name.
fn give(
    places: &mut Vec<Option<u32>>,
    design: &Design,
    inst: InstId,
    cell: &[u8],
) -> Result<(), Fault>
    requires many { length places.old.items ≡ length design.now.insts }
    requires inst { inst < length design.now.insts }
    ensures set { OnOk result (places.new.items ≡ slice_set places.old.items inst (place_named (parts_of design.now) inst cell.now)) }
    ensures good { OnOk result (place_fault (parts_of design.now) (slice_index_or places.old.items inst None) inst cell.now ≡ None) }
    ensures err { IfErr result (λ f. place_fault (parts_of design.now) (slice_index_or places.old.items inst None) inst cell.now ≡ Some f) }
{
    let at = inst.index();
    if places[at].is_some() {
        return Err(Fault::Twice);
    }
    let place = place_named(design, inst, cell);
    if place.is_none() {
        return Err(Fault::WrongCell);
    }
    places[at] = place;
    Ok(())
}

// The number of the instance of a name.
fn inst_of(alloc: Global, names: &NameMap<u32>, name: &[u8]) -> Result<Option<u32>, AllocError>
    requires { HasBuckets names.now }
    ensures { IfOk result (λ o. o ≡ find names.now name.now) }
{
    let key = Name::copy_of(alloc, name)?;
    let found = names.get(key).copied();
    Ok(found)
}

// Gives the instance of a name the cell of a name.
fn give_named(
    alloc: Global,
    places: &mut Vec<Option<u32>>,
    design: &Design,
    names: &NameMap<u32>,
    inst: &[u8],
    cell: &[u8],
) -> Result<(), Stop>
    requires many { length places.old.items ≡ length design.now.insts }
    requires knows { Knows (parts_of design.now) names.now }
    ensures ok { OnOk result ((past : List Row) → Holds (parts_of design.now) places.old.items past → GivesPlace (parts_of design.now) places.new.items past inst.now cell.now) }
    ensures err { IfErr result (λ e. (past : List Row) → Holds (parts_of design.now) places.old.items past → Stops e (inst_fault (parts_of design.now) past (inst_named (parts_of design.now) inst.now) cell.now)) }
{
    let Some(found) = inst_of(alloc, names, inst)? else {
        return Err(Stop::At(Fault::Unknown));
    };
    match give(places, design, InstId(found), cell) {
        Ok(()) => Ok(()),
        Err(fault) => Err(Stop::At(fault)),
    }
}

// Reads a line.
fn take(
    alloc: Global,
    places: &mut Vec<Option<u32>>,
    design: &Design,
    names: &NameMap<u32>,
    line: &[u8],
) -> Result<(), Stop>
    requires many { length places.old.items ≡ length design.now.insts }
    requires knows { Knows (parts_of design.now) names.now }
    ensures ok { OnOk result ((past : List Row) (i : ℕ) → Holds (parts_of design.now) places.old.items past → Holds (parts_of design.now) places.new.items (row_of i line.now ∷ past)) }
    ensures good { OnOk result ((past : List Row) (i : ℕ) → Holds (parts_of design.now) places.old.items past → fault (parts_of design.now) past (row_of i line.now) ≡ None) }
    ensures err { IfErr result (λ e. (past : List Row) (i : ℕ) → Holds (parts_of design.now) places.old.items past → Stops e (fault (parts_of design.now) past (row_of i line.now))) }
{
    let Some((inst, rest)) = first_word(without_return(line)) else {
        return Ok(());
    };
    let Some((cell, rest)) = first_word(rest) else {
        return Err(Stop::At(Fault::BadLine));
    };
    match first_word(rest) {
        None => give_named(alloc, places, design, names, inst, cell),
        Some(_) => Err(Stop::At(Fault::BadLine)),
    }
}

// The refusal of a fault at a line.
fn refusal_of(i: u32, fault: Fault) -> SizesErr
    ensures { result ≡ refusal_of i fault }
{
    match fault {
        Fault::BadLine => SizesErr::BadLine { i },
        Fault::Unknown => SizesErr::Unknown { i },
        Fault::Twice => SizesErr::Twice { i },
        Fault::WrongCell => SizesErr::WrongCell { i },
    }
}

// The refusal of a line at which the reader stops.
fn refused_at(i: u32, stop: Stop) -> SizesErr
    ensures { result ≡ refused_at i stop }
{
    match stop {
        Stop::At(fault) => refusal_of(i, fault),
        Stop::Mem => SizesErr::Mem,
    }
}

// No place for any instance.
fn none_given(alloc: Global, count: usize) -> Result<Vec<Option<u32>>, AllocError>
    ensures { IfOk result (λ v. v.items ≡ replicate count None) }
{
    let places = vec![in alloc; None; count]?;
    Ok(places)
}

// The refusal of a text of `count` lines that don't name an instance.
fn absent(alloc: Global, design: &Design, inst: InstId, count: u32) -> SizesErr
    requires { inst < length design.now.insts }
    ensures { Fails {V = List ℕ} SizesErr.Mem result (Err (SizesErr.Absent (inst_at design.now.insts inst).name count)) }
{
    match Name::copy_of(alloc, design.insts.name(inst).as_bytes()) {
        Ok(name) => SizesErr::Absent { name, i: count },
        Err(_) => SizesErr::Mem,
    }
}

// The sizes of a text of `count` lines that give these places.
fn finish(
    alloc: Global,
    design: &Design,
    places: &[Option<u32>],
    count: u32,
) -> Result<Sizes, SizesErr>
    requires { length places.now ≡ length design.now.insts }
    ensures { Answers SizesErr.Mem (ended (parts_of design.now) count places.now) result }
{
    let mut sizes = Vec::with_capacity(alloc, places.len())?;
    for inst in 0..places.len() {
        match places[inst] {
            Some(place) => sizes.push(place)?,
            None => return Err(absent(alloc, design, InstId(inst as u32), count)),
        }
    }
    Ok(Sizes::from_vec(sizes))
}

// Reads the lines of a text.
fn read_lines(
    alloc: Global,
    design: &Design,
    names: &NameMap<u32>,
    bytes: &[u8],
) -> Result<Sizes, SizesErr>
    requires few { length bytes.now ≤ 2 ^ 28 }
    requires knows { Knows (parts_of design.now) names.now }
    ensures { Answers SizesErr.Mem (reading (parts_of design.now) (rows bytes.now)) result }
{
    let mut places = none_given(alloc, design.insts.len())?;
    let mut at = 0;
    let mut number: u32 = 0;
    while at < bytes.len() {
        let line = line_at(bytes, at);
        number += 1;
        match take(alloc, &mut places, design, names, line) {
            Ok(()) => at += line.len() + 1,
            Err(stop) => return Err(refused_at(number, stop)),
        }
    }
    finish(alloc, design, places.as_slice(), number)
}

// Reads a text.
fn read_text(alloc: Global, design: &Design, bytes: &[u8]) -> Result<Sizes, SizesErr>
    requires { length bytes.now ≤ 2 ^ 28 }
    ensures { Answers SizesErr.Mem (reading (parts_of design.now) (rows bytes.now)) result }
{
    let names = inst_names(alloc, design)?;
    read_lines(alloc, design, &names, bytes)
}

/// Reads sizes of a design: each line has the name of an instance and the name of its cell, between spaces or tabs. The lines stand in any
/// order. A line without a word is passed over, and so is a carriage return at the end of a line.
///
/// It takes time in proportion to the text and to the names of the design, and looks a cell up among the alternatives of its instance.
///
/// # Errors
///
/// The first line at fault decides, and on one line the order is `BadLine`, `Unknown`, `Twice`, `WrongCell`. Where no line is at
/// fault, `Absent` names the first instance that no line names. `Mem` where memory ran out.
pub fn read_sizes(alloc: Global, design: &Design, bytes: &[u8]) -> Result<Sizes, SizesErr>
    requires { length bytes.now ≤ 2 ^ 28 }
    // What is read is what the text stands for,
    ensures ok { IfOk result (IsSizes (parts_of design.now) bytes.now) }
    // and fits the design.
    ensures fit { IfOk result (FitSizes design.now) }
    // A text is read as the sizes for which it stands, unless memory runs out.
    ensures only { IsOnly SizesErr.Mem (IsSizes (parts_of design.now) bytes.now) result }
    // Each refusal comes only by its cause,
    ensures err { IfErr result (HasCause (parts_of design.now) bytes.now) }
    // and where a cause stands, its refusal comes, unless memory runs out.
    ensures exact { IsExact SizesErr.Mem (HasCause (parts_of design.now) bytes.now) result }
    // Each text stands for sizes, or there is a cause.
    ensures decided { IsDecided SizesErr.Mem (IsSizes (parts_of design.now) bytes.now) (HasCause (parts_of design.now) bytes.now) }
{
    let read = read_text(alloc, design, bytes);
    read
}
