//! Cones: what a move changes of a timing, and nothing else.
//!
//! [`retime`] promises the nets of a move's cone, which the crate `gs_move` defines (`specs/Cone.antt` there): the moved instance's input and
//! output nets, and each net of a gate with an input net whose record changes. Each stands once, in the design's order, with its record in the
//! timing after the move (`seen_of` of `specs/Seen.antt`); and the counter rises by their number. The law [`cones_are_whole`] says that this
//! is all: laid over the timing before the move, they are the timing after it.
//!
//! A walk goes through the cone rank by rank, over the old timing, which is only read. The new records, the ranks that wait and the list of what
//! was seen are kept in a [`Scratch`] from move to move, so nothing in a retiming costs by the size of the design: the records of the last
//! one are forgotten by raising a number.
//!
//! Where to change what: which records are the same in `same`, the new records in `laid`, the ranks that wait in `queue`, which ranks wait in
//! `readers`, the views that a net is evaluated from in `over`, the walk in `cone`, what is kept in `scratch`, and what crates above reason
//! with in `laws`.
#![tactic(auto)]

mod cone;
mod laid;
mod laws;
mod over;
mod overlay;
mod queue;
mod readers;
mod same;
mod scratch;

pub use laws::cones_are_whole;
pub use overlay::{Overlay, retime};
pub use same::same_record;
pub use scratch::Scratch;
