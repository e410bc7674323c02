//! Places in a library.

ghost use Rattle.std.specs.Prelude.{◌≡◌, ◌<◌, ◌≤◌, length, IfOk};
ghost use Rattle.std.specs.List.{All};
ghost use Rattle.gs_text.specs.Bytes.{max_text};
ghost use Rattle.gs_text.specs.Pieces.{LiesIn};
ghost use Rattle.gs_text.specs.declared.kinds.Style.TheVariants.{Lib};
ghost use Rattle.gs_locate.specs.Found.{LocatesNth};
ghost use Rattle.gs_locate.specs.Liberty.{begins_item, is_cell_item, is_cell_name, is_library_item, is_pin_item, is_pin_name, is_timing_item, nests};

use crate::group::{Nested, calls, is_in_cell, is_in_pin, is_in_some_pin, locate_in, opens_group};
use crate::nest::Nest;
use crate::standing::{is_name, is_word};
use crate::statement::ends;
use gs_text::{Piece, Style};
use std::alloc::{AllocError, Global};

/// Whether an item begins with the piece at a place.
pub(crate) fn begins_item(bytes: &[u8], pieces: &[Piece], at: usize) -> bool
    requires inside { All (LiesIn (length bytes.now)) pieces.now }
    requires at { at < length pieces.now }
    ensures { result ≡ begins_item bytes.now pieces.now at }
{
    ends(Style::Lib, bytes, pieces, at.saturating_sub(1))
}

/// The name of a cell.
#[derive(Drop)]
struct CellName<'a> {
    cell: &'a [u8],
}

impl<'a> Nested for CellName<'a> {
    ghost use Rattle.gs_locate.specs.Liberty.{is_cell_name};

    ghost test = { λ s. is_cell_name s.cell.now };

    fn is_at(&self, bytes: &[u8], pieces: &[Piece], nest: Nest, at: usize) -> bool {
        nest.depth == 1
            && at == nest.cell + 2
            && is_in_cell(self.cell, bytes, pieces, nest)
            && opens_group(bytes, pieces, at)
    }
}

/// An item of the library itself.
#[derive(Drop)]
struct LibraryItem<'a> {
    name: &'a [u8],
}

impl<'a> Nested for LibraryItem<'a> {
    ghost use Rattle.gs_locate.specs.Liberty.{is_library_item};

    ghost test = { λ s. is_library_item s.name.now };

    fn is_at(&self, bytes: &[u8], pieces: &[Piece], nest: Nest, at: usize) -> bool {
        nest.depth == 1 && begins_item(bytes, pieces, at) && is_word(self.name, bytes, pieces, at)
    }
}

/// An item of a cell itself.
#[derive(Drop)]
struct CellItem<'a> {
    cell: &'a [u8],
    name: &'a [u8],
}

impl<'a> Nested for CellItem<'a> {
    ghost use Rattle.gs_locate.specs.Liberty.{is_cell_item};

    ghost test = { λ s. is_cell_item s.cell.now s.name.now };

    fn is_at(&self, bytes: &[u8], pieces: &[Piece], nest: Nest, at: usize) -> bool {
        nest.depth == 2
            && begins_item(bytes, pieces, at)
            && is_word(self.name, bytes, pieces, at)
            && is_in_cell(self.cell, bytes, pieces, nest)
    }
}

/// The name of a pin of a cell.
#[derive(Drop)]
struct PinName<'a> {
    cell: &'a [u8],
    pin: &'a [u8],
}

impl<'a> Nested for PinName<'a> {
    ghost use Rattle.gs_locate.specs.Liberty.{is_pin_name};

    ghost test = { λ s. is_pin_name s.cell.now s.pin.now };

    fn is_at(&self, bytes: &[u8], pieces: &[Piece], nest: Nest, at: usize) -> bool {
        nest.depth == 2
            && nest.part + 1 < at
            && is_name(self.pin, bytes, pieces, at)
            && is_in_some_pin(self.cell, bytes, pieces, nest)
            && opens_group(bytes, pieces, at)
    }
}

/// An item of a pin of a cell.
#[derive(Drop)]
struct PinItem<'a> {
    cell: &'a [u8],
    pin: &'a [u8],
    name: &'a [u8],
}

impl<'a> Nested for PinItem<'a> {
    ghost use Rattle.gs_locate.specs.Liberty.{is_pin_item};

    ghost test = { λ s. is_pin_item s.cell.now s.pin.now s.name.now };

    fn is_at(&self, bytes: &[u8], pieces: &[Piece], nest: Nest, at: usize) -> bool {
        nest.depth == 3
            && begins_item(bytes, pieces, at)
            && is_word(self.name, bytes, pieces, at)
            && is_in_pin(self.cell, self.pin, bytes, pieces, nest)
    }
}

/// An item of a `timing` group of a cell.
#[derive(Drop)]
struct TimingItem<'a> {
    cell: &'a [u8],
    name: &'a [u8],
}

impl<'a> Nested for TimingItem<'a> {
    ghost use Rattle.gs_locate.specs.Liberty.{is_timing_item};

    ghost test = { λ s. is_timing_item s.cell.now s.name.now };

    fn is_at(&self, bytes: &[u8], pieces: &[Piece], nest: Nest, at: usize) -> bool {
        nest.depth == 4
            && begins_item(bytes, pieces, at)
            && is_word(self.name, bytes, pieces, at)
            && calls(b"timing", bytes, pieces, nest.detail)
            && is_in_some_pin(self.cell, bytes, pieces, nest)
    }
}

/// The place of the name of a cell's group, of the one that has `n` of the name before it.
///
/// # Errors
///
/// Want of memory; and so of all calls of this file.
pub fn library_cell_place(
    alloc: Global,
    bytes: &[u8],
    cell: &[u8],
    n: usize,
) -> Result<Option<u32>, AllocError>
    requires { length bytes.now ≤ max_text }
    ensures { IfOk result (LocatesNth (nests (is_cell_name cell.now) bytes.now) n Lib bytes.now) }
{
    locate_in(alloc, bytes, &CellName { cell }, n)
}

/// The place of an attribute or a group of the library itself, as `time_unit`, of the one that has `n` of the name before it.
pub fn library_item_place(
    alloc: Global,
    bytes: &[u8],
    name: &[u8],
    n: usize,
) -> Result<Option<u32>, AllocError>
    requires { length bytes.now ≤ max_text }
    ensures { IfOk result (LocatesNth (nests (is_library_item name.now) bytes.now) n Lib bytes.now) }
{
    locate_in(alloc, bytes, &LibraryItem { name }, n)
}

/// The place of an attribute or a group of a cell itself, as `area`, of the one that has `n` of the name before it in cells of this name.
pub fn cell_item_place(
    alloc: Global,
    bytes: &[u8],
    cell: &[u8],
    name: &[u8],
    n: usize,
) -> Result<Option<u32>, AllocError>
    requires { length bytes.now ≤ max_text }
    ensures { IfOk result (LocatesNth (nests (is_cell_item cell.now name.now) bytes.now) n Lib bytes.now) }
{
    locate_in(alloc, bytes, &CellItem { cell, name }, n)
}

/// The place of the name of a pin of a cell, of the one that has `n` of the name before it in cells of this name.
pub fn library_pin_place(
    alloc: Global,
    bytes: &[u8],
    cell: &[u8],
    pin: &[u8],
    n: usize,
) -> Result<Option<u32>, AllocError>
    requires { length bytes.now ≤ max_text }
    ensures { IfOk result (LocatesNth (nests (is_pin_name cell.now pin.now) bytes.now) n Lib bytes.now) }
{
    locate_in(alloc, bytes, &PinName { cell, pin }, n)
}

/// The place of an attribute or a group of a pin of a cell, as `capacitance`, of the one that has `n` of the name before it in pins of
/// this name.
pub fn pin_item_place(
    alloc: Global,
    bytes: &[u8],
    cell: &[u8],
    pin: &[u8],
    name: &[u8],
    n: usize,
) -> Result<Option<u32>, AllocError>
    requires { length bytes.now ≤ max_text }
    ensures { IfOk result (LocatesNth (nests (is_pin_item cell.now pin.now name.now) bytes.now) n Lib bytes.now) }
{
    locate_in(alloc, bytes, &PinItem { cell, pin, name }, n)
}

/// The place of an attribute or a group of a `timing` group of a cell, as `cell_rise`, of the one that has `n` of the name before it in the
/// `timing` groups of cells of this name.
pub fn timing_item_place(
    alloc: Global,
    bytes: &[u8],
    cell: &[u8],
    name: &[u8],
    n: usize,
) -> Result<Option<u32>, AllocError>
    requires { length bytes.now ≤ max_text }
    ensures { IfOk result (LocatesNth (nests (is_timing_item cell.now name.now) bytes.now) n Lib bytes.now) }
{
    locate_in(alloc, bytes, &TimingItem { cell, name }, n)
}
