//! The alternatives of all cells of a library, found once.
//!
//! Cells may take each other's place where they are unmarked gates of one footprint with the same input names, output name and truth
//! table; `gs_design` says so as `alike`, and as `alternatives` which cells stand for one cell and in which order: by leakage, and then by
//! name. [`alternatives_of`] computes them for every cell of a library, in time near linear in the library: cells are put in order once, by
//! an ordered map, and into classes by another, on a key that two cells share exactly where they are alike. No two cells are compared
//! but by those maps.
//!
//! [`Alternatives`] holds the lists of all classes one after another, and for each cell the stretch that is its own and its place in it:
//! the numbers that the rows of a design's instances hold.
//!
//! `key.rt` makes the key, `classes.rt` the classes, `rank.rt` the order, `groups.rt` the list of each class, and `layout.rt` puts these one
//! after another. To change which cells are alike, change `alike` in `gs_design`, and then the key.
#![tactic(auto)]

mod alternatives;
mod choices;
mod classes;
mod groups;
mod key;
mod layout;
mod rank;

pub use alternatives::alternatives_of;
pub use choices::{Alternatives, Stretch};
