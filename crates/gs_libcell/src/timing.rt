//! Groups `timing` of a cell's output.

ghost use Rattle.std.specs.Prelude.{◌≡◌, ◌≤◌, ◌<◌, ◌++◌, IfOk, IfSome, Some, codes, false, length, map, option_copied};
ghost use Rattle.std.specs.List.{filter_map, position};
ghost use Rattle.gs_libcell.specs.Attribute.{group_in};
ghost use Rattle.gs_libcell.specs.Pin.{is_named};
ghost use Rattle.gs_libcell.specs.Text.{runs_in, words_of};
ghost use Rattle.gs_libcell.specs.Timing.{is_read, is_read_type, related_by, sense_by, timing_lists, timing_of, timings_by, timings_in};

use crate::attribute::{group_in, last_simple};
use crate::grid::{Grid, grid_in};
use crate::pin::NamedPin;
use crate::template::Context;
use crate::text::{is_gap, may_continue, run_end, unfolded};
use gs_design::Sense;
use gs_libtree::{Item, Node};
use gs_list::Rows;
use gs_text::Name;
use std::alloc::{AllocError, Global};

/// What a `timing` group says.
#[derive(Drop)]
pub struct Timing {
    /// The inputs that it names, by their places among the cell's inputs.
    pub related: Rows<u8>,
    pub sense: Sense,
    pub cell_rise: Grid,
    pub cell_fall: Grid,
    pub rise_transition: Grid,
    pub fall_transition: Grid,
}

fn is_read_type(flop: bool, value: Option<&Name>) -> bool
    ensures { result ≡ is_read_type flop (option_copied value.entry) }
{
    match value {
        None => !flop,
        Some(text) => {
            if flop {
                return text.is(b"rising_edge");
            }
            text.is(b"combinational")
        }
    }
}

/// Whether a group of a flip-flop, or of a gate, isn't passed over.
pub fn is_read(flop: bool, group: &Node) -> bool
    ensures { result ≡ is_read flop group.now }
{
    is_read_type(flop, last_simple(b"timing_type", group.items.as_slice()))
}

fn gate_sense(text: &Name) -> Sense
    ensures { result ≡ sense_by false (Some text.now) }
{
    if text.is(b"positive_unate") {
        return Sense::Same;
    }
    if text.is(b"negative_unate") {
        return Sense::Other;
    }
    Sense::Both
}

fn sense_by(flop: bool, value: Option<&Name>) -> Sense
    ensures { result ≡ sense_by flop (option_copied value.entry) }
{
    if flop {
        return Sense::Launch;
    }
    match value {
        None => Sense::Both,
        Some(text) => gate_sense(text),
    }
}

/// The place of the first input of a name.
fn place_of(inputs: &[NamedPin], name: &[u8]) -> Option<usize>
    ensures value { result ≡ position (is_named name.now) inputs.now }
    ensures within { IfSome result (λ p. p < length inputs.now) }
{
    inputs.iter().position(|input| input.name.is(name))
}

/// Puts the places of the inputs last that the words of a text without continuations name.
fn push_words(inputs: &[NamedPin], text: &[u8], places: &mut Vec<u8>) -> Result<(), AllocError>
    requires { length inputs.now ≤ 255 }
    ensures { IfOk result (λ _. places.new.items ≡ places.old.items ++ filter_map (λ word. position (is_named word) inputs.now) (runs_in false text.now)) }
{
    let mut at = 0;
    while at < text.len() {
        if is_gap(false, text[at]) {
            at += 1;
            continue;
        }
        let end = run_end(false, text, at);
        let found = place_of(inputs, &text[at..end]);
        at = end;
        let Some(place) = found else {
            continue;
        };
        places.push(place as u8)?;
    }
    Ok(())
}

/// The inputs that the words of a text name.
fn related_in(alloc: Global, inputs: &[NamedPin], text: &[u8]) -> Result<Vec<u8>, AllocError>
    requires { length inputs.now ≤ 255 }
    ensures { IfOk result (λ v. v.items ≡ filter_map (λ word. position (is_named word) inputs.now) (words_of text.now)) }
{
    let mut places = Vec::new(alloc);
    if may_continue(text) {
        let copy = unfolded(alloc, text)?;
        push_words(inputs, copy.as_slice(), &mut places)?;
        return Ok(places);
    }
    push_words(inputs, text, &mut places)?;
    Ok(places)
}

fn related_by(
    alloc: Global,
    inputs: &[NamedPin],
    value: Option<&Name>,
) -> Result<Rows<u8>, AllocError>
    requires { length inputs.now ≤ 255 }
    ensures { IfOk result (λ r. r ≡ related_by inputs.now (option_copied value.entry)) }
{
    let Some(text) = value else {
        return Ok(Rows::empty(alloc));
    };
    let places = related_in(alloc, inputs, text.as_bytes())?;
    Ok(Rows::from_vec(places))
}

/// What a group with these items says.
fn timing_of(
    alloc: Global,
    lib: &Context,
    flop: bool,
    inputs: &[NamedPin],
    items: &[Item],
) -> Result<Timing, AllocError>
    requires { length inputs.now ≤ 255 }
    ensures { IfOk result (λ t. timing_lists t ≡ timing_of lib.now flop inputs.now items.now) }
{
    let related = related_by(alloc, inputs, last_simple(b"related_pin", items))?;
    let sense = sense_by(flop, last_simple(b"timing_sense", items));
    let cell_rise = grid_in(alloc, lib, b"cell_rise", items)?;
    let cell_fall = grid_in(alloc, lib, b"cell_fall", items)?;
    let rise_transition = grid_in(alloc, lib, b"rise_transition", items)?;
    let fall_transition = grid_in(alloc, lib, b"fall_transition", items)?;
    Ok(Timing {
        related,
        sense,
        cell_rise,
        cell_fall,
        rise_transition,
        fall_transition,
    })
}

/// Puts what an item says last, where that is a `timing` group that isn't passed over.
fn push_timing(
    alloc: Global,
    lib: &Context,
    flop: bool,
    inputs: &[NamedPin],
    item: &Item,
    timings: &mut Vec<Timing>,
) -> Result<(), AllocError>
    requires { length inputs.now ≤ 255 }
    ensures { IfOk result (λ _. map timing_lists timings.new.items ≡ map timing_lists timings.old.items ++ timings_by lib.now flop inputs.now (group_in (codes "timing") item.now)) }
{
    let Some(group) = group_in(b"timing", item) else {
        return Ok(());
    };
    if !is_read(flop, group) {
        return Ok(());
    }
    let timing = timing_of(alloc, lib, flop, inputs, group.items.as_slice())?;
    timings.push(timing)?;
    Ok(())
}

/// What the `timing` groups among the items say that aren't passed over, in the order of the file.
pub fn timings_in(
    alloc: Global,
    lib: &Context,
    flop: bool,
    inputs: &[NamedPin],
    items: &[Item],
) -> Result<Vec<Timing>, AllocError>
    requires { length inputs.now ≤ 255 }
    ensures { IfOk result (λ v. map timing_lists v.items ≡ timings_in lib.now flop inputs.now items.now) }
{
    let mut timings = Vec::new(alloc);
    for item in items {
        push_timing(alloc, lib, flop, inputs, item, &mut timings)?;
    }
    Ok(timings)
}
