//! The types of a library and of a design, what each keeps, and the rules by which a design is timed and judged.
//!
//! This crate is what all of the others agree on. A reader of libraries makes a [`Library`], the link makes a [`Design`], timing
//! fills a [`Timing`], and everything above speaks of these and of the definitions here. It reckons nothing itself: what is
//! stated here once, as short definitions over lists, others compute, and prove that they do.
//!
//! - **What a type keeps** is a ghost field of it, so each value carries the proof: `IsCell` and `IsLibrary` (`specs/Cell.antt`,
//!   `specs/Library.antt`), `IsDesign` (`specs/Design.antt`), field by field and by index. Whoever makes a value proves it once; whoever
//!   holds one reads the fact it needs.
//! - **The rules** are definitions of a design, its sizes and a timing: the load of a net and its bounds (`specs/Load.antt`), the edges that
//!   a cell makes (`specs/Edges.antt`), the equation of a net and the timing of a design (`specs/Timing.antt`), limits, excess and
//!   violations (`specs/Limits.antt`), sizes, leakage and area (`specs/Sizes.antt`), and which cells may take each other's place
//!   (`specs/Alternatives.antt`; what they are, by the law [`alternatives_are_kept`], says `specs/Class.antt`).
//! - **Layout.** Contracts see `insts` and `nets` of a design as lists of records. In memory what timing reads lies in rows of numbers and in
//!   `Grouped` lists, apart from the names; `Design::new` lays out the data of all pins and the endpoints by net, which nothing above
//!   has to know. Reading calls take a number and give a field: no search, and no memory taken.
//! - [`Sizes`] and [`Timing`] are lists; [`SizeView`] and [`TimeView`] are whatever can tell their elements, as an overlay of changes does.
//!
//! Quantities are millionths of 1 ps, of 1 fF, and of the library's units of leakage and area.
//!
//! To change a rule, change its definition; the crates that compute it then don't prove until they follow. To keep a further fact of a
//! design, add it to `IsDesign`, and the link has to prove it.
#![tactic(auto)]

mod alternatives;
mod arc;
mod build;
mod cell;
mod design;
mod end;
mod first;
mod hot;
mod ids;
mod insts;
mod kind;
mod library;
mod limit;
mod named;
mod nets;
mod parts;
mod pin;
mod read;
mod rows;
mod sink;
#[cfg(test)]
mod tests;
mod time;
mod units;
mod view;

pub use alternatives::alternatives_are_kept;
pub use arc::{Arcs, Sense, TimingArc};
pub use cell::{Cell, Cells};
pub use design::Design;
pub use end::{End, EndPlace, Ends};
pub use hot::PinData;
pub use ids::{CellId, InstId, NetId};
pub use insts::Insts;
pub use kind::CellKind;
pub use library::Library;
pub use limit::{Limit, Violation};
pub use nets::Nets;
pub use parts::{CellIds, NetIds, Numbers, Parts};
pub use pin::{CellPin, CellPins, Role};
pub use rows::{InstRow, NetRow};
pub use sink::{Driven, Driver, Sink, Sinks};
pub use time::{Edge, NetAt, NetTime, NetTimes};
pub use units::Units;
pub use view::{SizeView, Sizes, TimeView, Timing};
