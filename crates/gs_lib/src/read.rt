//! Reading a library.

ghost use Rattle.std.specs.Prelude.{◌≡◌, [], IfOk, IfErr, MatchResult, map};
ghost use Rattle.gs_design.specs.Library.{IsLibrary};
ghost use Rattle.gs_grammar.specs.Answers.{IsDecided, IsExact, IsOnly};
ghost use Rattle.gs_libcell.specs.Unit.{scale};
ghost use Rattle.gs_lib.specs.Draft.{cell_lists, cell_of};
ghost use Rattle.gs_lib.specs.Index.{IsKept};
ghost use Rattle.gs_lib.specs.Library.{Checks, HasCause, IsLibraryOf, count_fault, drafts_fault, drafts_in, library_lists};
ghost use Rattle.gs_lib.specs.declared.error.LibErr.{LibErr};

use crate::builder::Builder;
use crate::classes::has_large_class;
use crate::error::LibErr;
use crate::header::{Header, read_header};
use gs_design::{Cell, Library};
use gs_libcell::Context;
use gs_libtree::{Group, Item, Node};
use gs_list::Rows;
use std::alloc::Global;

/// How many cells a library may have.
const MOST: usize = 65_535;

/// How many names of cells stand in a bucket, about.
const NAMES_TO_A_BUCKET: usize = 8;

/// The cells of the items of a library.
fn read_cells(alloc: Global, lib: &Context, items: &[Item]) -> Result<Builder, LibErr>
    ensures fault { Checks (drafts_fault [] (drafts_in lib.now items.now)) result }
    ensures cells { IfOk result (λ b. map cell_lists b.cells.items ≡ map cell_of (drafts_in lib.now items.now)) }
    ensures kept { IfOk result (λ b. IsKept b) }
{
    let mut builder = Builder::new(alloc, items.len() / NAMES_TO_A_BUCKET + 1)?;
    for item in items {
        match builder.take_item(alloc, lib, item) {
            Ok(()) => {}
            Err(error) => return Err(error),
        }
    }
    Ok(builder)
}

/// Whether these are too many cells.
fn check_count(alloc: Global, cells: &[Cell]) -> Result<(), LibErr>
    ensures { Checks (count_fault (map cell_lists cells.now)) result }
{
    if cells.len() > MOST {
        return Err(LibErr::TooMany);
    }
    let large = has_large_class(alloc, cells)?;
    if large {
        return Err(LibErr::TooMany);
    }
    Ok(())
}

fn make_library(header: Header, cells: Vec<Cell>) -> Library
    requires { IsLibrary header.slew_default cells.items }
    ensures { library_lists result ≡ record { units = scale header.units; leak_unit = header.leak_unit; slew_default = header.slew_default; cells = map cell_lists cells.items } }
{
    let Header {
        units,
        leak_unit,
        slew_default,
    } = header;
    Library {
        units,
        leak_unit,
        slew_default,
        cells: Rows::from_vec(cells),
    }
}

/// Reads the library of a root.
fn read_root(alloc: Global, root: &Node) -> Result<Library, LibErr>
    ensures { MatchResult result (λ l. IsLibraryOf root.now l) (λ e. HasCause root.now e) }
{
    let header = match read_header(alloc, root) {
        Ok(header) => header,
        Err(error) => return Err(error),
    };
    let lib = Context::new(alloc, header.units, root.items.as_slice())?;
    let builder = match read_cells(alloc, &lib, root.items.as_slice()) {
        Ok(builder) => builder,
        Err(error) => return Err(error),
    };
    let Builder { cells, names: _ } = builder;
    if let Err(error) = check_count(alloc, cells.as_slice()) {
        return Err(error);
    }
    Ok(make_library(header, cells))
}

/// Reads a library: its units, and its cells with their pins, arcs and lookup tables, in the order of the file.
///
/// Of an attribute, a table of one kind in one `timing` group, or a template given twice, the last counts. Cells outside of the
/// profile are passed over. Times are in millionths of 1 ps, capacitances in millionths of 1 fF, leakage and area in millionths of
/// the library's unit.
///
/// # Errors
///
/// The first of these: `Missing` of the `Library`; `NoUnit`; `BadUnit`; `BadNumber` of the library; then for each cell of the
/// profile, in the order of the file, `TwoCells`, `Missing`, `BadNumber`, `BadTable`; last `TooMany`. `Mem` where memory ran out.
pub fn read_library(alloc: Global, root: &Group) -> Result<Library, LibErr>
    // What is read is the library of the tree.
    ensures ok { IfOk result (λ l. IsLibraryOf root.now l) }
    // The tree of a library is read as its one library, unless memory runs out.
    ensures only { IsOnly LibErr.Mem (IsLibraryOf root.now) result }
    // Each refusal comes only by its cause: it is the first that stands,
    ensures err { IfErr result (λ e. HasCause root.now e) }
    // and where a cause stands, its refusal comes, unless memory runs out.
    ensures exact { IsExact LibErr.Mem (HasCause root.now) result }
    // Each tree has a library, or a cause other than want of memory.
    ensures decided { IsDecided LibErr.Mem (IsLibraryOf root.now) (HasCause root.now) }
{
    let read = read_root(alloc, root.root());
    read
}
