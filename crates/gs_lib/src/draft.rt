//! What a cell says, before it is judged.

ghost use Rattle.std.specs.Prelude.{◌≡◌, ◌≤◌, [], ◌||◌, IfOk, IfErr, codes, length, map, option_copied, unwrap_or};
ghost use Rattle.gs_libcell.specs.Attribute.{last_simple};
ghost use Rattle.gs_libcell.specs.Pin.{is_true};
ghost use Rattle.gs_lib.specs.Draft.{draft_lists, draft_of};
ghost use Rattle.gs_lib.specs.Profile.{inputs_in_order};
ghost use Rattle.gs_lib.specs.declared.error.LibErr.{LibErr};

use crate::error::LibErr;
use crate::profile::{is_flop, output_items};
use gs_design::CellKind;
use gs_libcell::{
    Amount, Context, NamedPin, Timing, amount_in, is_true, label_of, last_simple, timings_in,
};
use gs_libtree::{Item, Node};
use gs_list::Rows;
use gs_text::Name;
use std::alloc::Global;

/// What a cell says.
#[derive(Drop)]
pub struct Draft {
    pub name: Name,
    pub footprint: Name,
    pub leakage: Amount,
    pub area: Amount,
    pub marked: bool,
    pub flop: bool,
    pub kind: CellKind,
    /// The pins, as they stand in the file.
    pub pins: Rows<NamedPin>,
    /// The inputs, in byte order of their names.
    pub inputs: Rows<NamedPin>,
    /// The `timing` groups of the output that aren't passed over.
    pub timings: Rows<Timing>,
}

/// A copy of a value, empty where there is none.
fn copy_or_empty(alloc: Global, value: Option<&Name>) -> Result<Name, LibErr>
    ensures ok { IfOk result (λ n. n ≡ unwrap_or (option_copied value.entry) []) }
    ensures err { IfErr result (λ e. e ≡ LibErr.Mem) }
{
    let Some(value) = value else {
        return Ok(Name::empty(alloc));
    };
    let copy = Name::copy_of(alloc, value.as_bytes())?;
    Ok(copy)
}

/// The value of the simple attribute of the name, empty where it is missing.
pub fn text_in(alloc: Global, name: &[u8], items: &[Item]) -> Result<Name, LibErr>
    ensures ok { IfOk result (λ n. n ≡ unwrap_or (last_simple name.now items.now) []) }
    ensures err { IfErr result (λ e. e ≡ LibErr.Mem) }
{
    copy_or_empty(alloc, last_simple(name, items))
}

/// Whether a cell with these items is marked.
fn is_marked(items: &[Item]) -> bool
    ensures { result ≡ (is_true (codes "dont_touch") items.now || is_true (codes "dont_use") items.now) }
{
    is_true(b"dont_touch", items) || is_true(b"dont_use", items)
}

/// What a cell says that is read as this kind.
pub fn draft_of(
    alloc: Global,
    lib: &Context,
    cell: &Node,
    kind: CellKind,
    pins: Vec<NamedPin>,
    inputs: Vec<NamedPin>,
) -> Result<Draft, LibErr>
    requires few { length inputs.items ≤ 255 }
    requires inputs { inputs.items ≡ inputs_in_order pins.items }
    ensures ok { IfOk result (λ d. draft_lists d ≡ draft_of lib.now cell.now pins.items kind) }
    ensures err { IfErr result (λ e. e ≡ LibErr.Mem) }
{
    let items = cell.items.as_slice();
    let name = Name::copy_of(alloc, label_of(cell))?;
    let footprint = text_in(alloc, b"cell_footprint", items)?;
    let flop = is_flop(items);
    let timings = timings_in(alloc, lib, flop, inputs.as_slice(), output_items(items))?;
    Ok(Draft {
        name,
        footprint,
        leakage: amount_in(b"cell_leakage_power", 0, items),
        area: amount_in(b"area", 0, items),
        marked: is_marked(items),
        flop,
        kind,
        pins: Rows::from_vec(pins),
        inputs: Rows::from_vec(inputs),
        timings: Rows::from_vec(timings),
    })
}
