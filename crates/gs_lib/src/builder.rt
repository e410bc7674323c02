//! The cells of a library while it is read, with their names.

ghost use Rattle.std.specs.Prelude.{◌≡◌, ◌<◌, ◌++◌, ◌∷◌, [], false, None, Some, IfOk, IfErr, codes, map};
ghost use Rattle.std.specs.List.{list_any};
ghost use Rattle.std.specs.Option.{option_map};
ghost use Rattle.std.specs.Str.{bytes_eq};
ghost use Rattle.gs_design.specs.Cells.{cell_name};
ghost use Rattle.gs_libcell.specs.Attribute.{group_in};
ghost use Rattle.gs_libcell.specs.Pin.{pins_in};
ghost use Rattle.gs_text.specs.Pieces.{IsUnbroken};
ghost use Rattle.gs_lib.specs.Draft.{cell_lists, cell_of, draft_lists};
ghost use Rattle.gs_lib.specs.Index.{IsKept, IsOfCell, cells_by, fault_by, names_by};
ghost use Rattle.gs_lib.specs.Library.{Checks, draft_by, draft_fault, draft_with, drafts_fault, drafts_in, part_fault};
ghost use Rattle.gs_lib.specs.declared.draft.Draft.{Draft};
ghost use Rattle.gs_lib.specs.declared.error.LibErr.{LibErr};

use crate::cell::cell_of;
use crate::draft::{Draft, draft_of};
use crate::error::LibErr;
use crate::fault::{bad_table, draft_is_bad, draft_missing};
use crate::profile::{inputs_in_order, kind_of};
use gs_design::Cell;
use gs_libcell::{Context, NamedPin, group_in, pins_in};
use gs_libtree::{Item, Node};
use gs_names::NameMap;
use gs_text::Name;
use std::alloc::Global;

/// The cells so far, and their names.
#[derive(Drop)]
pub struct Builder {
    pub cells: Vec<Cell>,
    pub names: NameMap<()>,
}

/// Why a cell isn't read whose name is new.
fn part_fault(alloc: Global, draft: &Draft) -> Result<(), LibErr>
    ensures { Checks (part_fault (draft_lists draft.now)) result }
{
    if let Some(what) = draft_missing(draft) {
        let cell = Name::copy_of(alloc, draft.name.as_bytes())?;
        return Err(LibErr::Missing { cell, what });
    }
    if draft_is_bad(draft) {
        let cell = Name::copy_of(alloc, draft.name.as_bytes())?;
        return Err(LibErr::BadNumber { cell });
    }
    if let Some(i) = bad_table(draft.timings.as_slice()) {
        let cell = Name::copy_of(alloc, draft.name.as_bytes())?;
        return Err(LibErr::BadTable { cell, i });
    }
    Ok(())
}

/// What a cell of these pins says; none where it is passed over.
fn draft_with(
    alloc: Global,
    lib: &Context,
    cell: &Node,
    pins: Vec<NamedPin>,
) -> Result<Option<Draft>, LibErr>
    requires { pins.items ≡ pins_in lib.now.units cell.now.items }
    ensures ok { IfOk result (λ o. option_map draft_lists o ≡ draft_with lib.now cell.now pins.items) }
    ensures of_cell { IfOk result (λ o. (d : Draft) → o ≡ Some d → IsOfCell lib.now cell.now d) }
    ensures err { IfErr result (λ e. e ≡ LibErr.Mem) }
{
    let inputs = inputs_in_order(alloc, pins.as_slice())?;
    let kind = kind_of(alloc, cell, pins.as_slice(), inputs.as_slice())?;
    match kind {
        None => Ok(None),
        Some(kind) => {
            let draft = draft_of(alloc, lib, cell, kind, pins, inputs)?;
            Ok(Some(draft))
        }
    }
}

/// What a cell says; none where it is passed over.
fn draft_in(alloc: Global, lib: &Context, cell: &Node) -> Result<Option<Draft>, LibErr>
    ensures ok { IfOk result (λ o. option_map draft_lists o ≡ draft_by lib.now (Some cell.now)) }
    ensures of_cell { IfOk result (λ o. (d : Draft) → o ≡ Some d → IsOfCell lib.now cell.now d) }
    ensures err { IfErr result (λ e. e ≡ LibErr.Mem) }
{
    let pins = pins_in(alloc, lib.units(), cell.items.as_slice())?;
    let draft = draft_with(alloc, lib, cell, pins)?;
    Ok(draft)
}

/// The cell of a draft in which nothing is missing or bad.
fn cell_from(alloc: Global, lib: &Context, cell: &Node, draft: Draft) -> Result<Cell, LibErr>
    requires of_cell { IsOfCell lib.now cell.now draft }
    requires whole { part_fault (draft_lists draft) ≡ None }
    ensures ok { IfOk result (λ c. cell_lists c ≡ cell_of (draft_lists draft)) }
    ensures err { IfErr result (λ e. e ≡ LibErr.Mem) }
{
    cell_of(alloc, draft)
}

impl Builder {
    /// No cells. Their names will be found in `buckets` buckets.
    pub fn new(alloc: Global, buckets: usize) -> Result<Builder, LibErr>
        requires { 0 < buckets }
        ensures cells { IfOk result (λ b. b.cells.items ≡ []) }
        ensures kept { IfOk result (λ b. IsKept b) }
        ensures err { IfErr result (λ e. e ≡ LibErr.Mem) }
    {
        let names = NameMap::new(alloc, buckets)?;
        Ok(Builder {
            cells: Vec::new(alloc),
            names,
        })
    }

    /// Whether a cell has the name.
    fn has(&self, name: Name) -> bool
        requires { IsKept self.now }
        ensures { result ≡ list_any (bytes_eq name) (map cell_name self.now.cells.items) }
    {
        self.names.get(name).is_some()
    }

    /// Puts a cell of a new name last.
    fn put(&mut self, name: Name, cell: Cell) -> Result<(), LibErr>
        requires kept { IsKept self.old }
        requires name { name ≡ cell.name }
        requires new { list_any (bytes_eq name) (map cell_name self.old.cells.items) ≡ false }
        requires solid { IsUnbroken cell.name }
        ensures cells { IfOk result (λ _. self.new.cells.items ≡ self.old.cells.items ++ cell ∷ []) }
        ensures kept { IfOk result (λ _. IsKept self.new) }
        ensures err { IfErr result (λ e. e ≡ LibErr.Mem) }
    {
        self.names.insert(name, ())?;
        self.cells.push(cell)?;
        Ok(())
    }

    /// Takes a cell of the profile.
    fn take_draft(
        &mut self,
        alloc: Global,
        lib: &Context,
        cell: &Node,
        draft: Draft,
    ) -> Result<(), LibErr>
        requires kept { IsKept self.old }
        requires of_cell { IsOfCell lib.now cell.now draft }
        ensures fault { Checks (draft_fault (map cell_name self.old.cells.items) (draft_lists draft)) result }
        ensures cells { IfOk result (λ _. map cell_lists self.new.cells.items ≡ map cell_lists self.old.cells.items ++ cell_of (draft_lists draft) ∷ []) }
        ensures names { IfOk result (λ _. map cell_name self.new.cells.items ≡ map cell_name self.old.cells.items ++ draft.name ∷ []) }
        ensures kept { IfOk result (λ _. IsKept self.new) }
    {
        let name = Name::copy_of(alloc, draft.name.as_bytes())?;
        if self.has(Name::copy_of(alloc, draft.name.as_bytes())?) {
            return Err(LibErr::TwoCells { name });
        }
        if let Err(error) = part_fault(alloc, &draft) {
            return Err(error);
        }
        let made = cell_from(alloc, lib, cell, draft)?;
        self.put(name, made)?;
        Ok(())
    }

    /// Takes a cell, which may be passed over.
    fn take_cell(&mut self, alloc: Global, lib: &Context, cell: &Node) -> Result<(), LibErr>
        requires { IsKept self.old }
        ensures fault { Checks (fault_by (map cell_name self.old.cells.items) (draft_by lib.now (Some cell.now))) result }
        ensures cells { IfOk result (λ _. map cell_lists self.new.cells.items ≡ map cell_lists self.old.cells.items ++ cells_by (draft_by lib.now (Some cell.now))) }
        ensures names { IfOk result (λ _. map cell_name self.new.cells.items ≡ map cell_name self.old.cells.items ++ names_by (draft_by lib.now (Some cell.now))) }
        ensures kept { IfOk result (λ _. IsKept self.new) }
    {
        let draft = draft_in(alloc, lib, cell)?;
        match draft {
            None => Ok(()),
            Some(draft) => self.take_draft(alloc, lib, cell, draft),
        }
    }

    /// Takes an item of the library, which may be a cell.
    pub fn take_item(&mut self, alloc: Global, lib: &Context, item: &Item) -> Result<(), LibErr>
        requires { IsKept self.old }
        ensures fault { Checks (fault_by (map cell_name self.old.cells.items) (draft_by lib.now (group_in (codes "cell") item.now))) result }
        ensures cells { IfOk result (λ _. map cell_lists self.new.cells.items ≡ map cell_lists self.old.cells.items ++ cells_by (draft_by lib.now (group_in (codes "cell") item.now))) }
        ensures names { IfOk result (λ _. map cell_name self.new.cells.items ≡ map cell_name self.old.cells.items ++ names_by (draft_by lib.now (group_in (codes "cell") item.now))) }
        ensures kept { IfOk result (λ _. IsKept self.new) }
    {
        match group_in(b"cell", item) {
            Some(cell) => self.take_cell(alloc, lib, cell),
            None => Ok(()),
        }
    }
}
