//! Libraries of cells, after the Liberty reference manual, in this project's own profile.
//!
//! [`read_library`] reads the tree of a Liberty text and answers its `Library`: units, and cells with their pins, functions, arcs and
//! lookup tables. Its contract says both ways what is read: it answers `Ok` exactly on the trees of a library (`IsLibraryOf`), with the
//! one library, and each refusal exactly where it is the first that stands; each tree has a library or such a refusal, and
//! [`each_tree_is_decided`] says that it never has both, nor two of either. Want of memory is the one answer that may come at any point.
//! Definitions see each table of a library as its three lists (`library_lists`); two libraries with the same lists are the same.
//!
//! - `specs/Profile.antt`: which cells are read, and as what. Each of the seven reasons why a cell is passed over is a definition.
//! - `specs/Draft.antt`: what a cell says, which of it is missing or bad, and the cell that it makes.
//! - `specs/Library.antt`: units, the refusals in their order (`first_fault`), and the library of a tree.
//! - `specs/Index.antt`, `specs/Inputs.antt`, `specs/Classes.antt`: how names, a cell's inputs in order, and cells that may take each
//!   other's place are found. No public clause names them.
//!
//! Each attribute of the library is a pass over the root's items, and the cells are one more; a cell costs some passes over its own
//! items, two looks into a map of names, and one count by its footprint. Classes are counted in an ordered map only where more than
//! 1,024 cells have footprints of one group. Each table is parsed once and copied for each input that its group names.
//!
//! A further refusal of a cell is a line of `part_fault`; a further attribute is a field of `Draft`, read in `src/draft.rt` and judged in
//! `src/fault.rt`; attributes of pins and tables stand in the crate below.
#![tactic(auto)]

mod builder;
mod cell;
mod classes;
mod draft;
mod error;
#[cfg(test)]
mod example_tests;
mod fault;
mod header;
mod law;
mod profile;
mod read;
#[cfg(test)]
mod tests;

pub use error::{LibErr, What};
pub use law::each_tree_is_decided;
pub use read::read_library;
