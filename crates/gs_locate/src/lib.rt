//! Where a named object stands in a text, so that a refusal which names it can point a designer to the place.
//!
//! Each call looks for a piece of a text (`gs_text`) and answers the byte at which it begins, counted from 0, or `None` where no piece is
//! the one that is sought. What it is to be sought is a test of one piece, in the words of the format, and the clause of each call says
//! that its answer is the first piece that passes, or the one with `n` others before it (`specs/Found.antt`). A text that isn't cut has no
//! pieces, so nothing is found in it. The one error is want of memory.
//!
//! - In a netlist, by the statement around the piece (`specs/Statement.antt`, `specs/Verilog.antt`): [`instance_place`], [`instance_cell_place`],
//!   [`cell_place`], [`pin_place`], [`net_place`], [`port_place`], and [`driver_place`], whose caller says which pins drive ([`Outputs`]).
//! - In constraints, by the command (`specs/Sdc.antt`): [`constraint_place`]. In SPEF, by the line (`specs/Spef.antt`): [`net_block_place`].
//! - In a library, by the groups around the piece (`specs/Nest.antt`, `specs/Liberty.antt`): [`library_cell_place`], [`library_item_place`],
//!   [`cell_item_place`], [`library_pin_place`], [`pin_item_place`], [`timing_item_place`], and [`bad_value_place`], whose caller says which
//!   values are bad ([`Values`]).
//!
//! Nothing is judged here: a test takes a text as its pieces stand, whether or not a reader accepts the text.
//!
//! A call cuts the text once, which takes 16 bytes for each piece, and passes once over the pieces. Only at pieces that have the name that
//! is sought does a test look further, back to the latest mark or on to the end of a group's args.
//!
//! A new object is a test in `specs`, a struct with its `Sought` (or `Nested`, in a library) beside it in `src`, and a call: the loops of
//! `src/search.rt` and `src/group.rt` and their proofs know no test.
#![tactic(auto)]

mod driver;
mod group;
mod liberty;
mod nest;
mod sdc;
mod search;
mod spef;
mod standing;
mod statement;
#[cfg(test)]
mod tests;
mod value;
mod verilog;

pub use driver::{Outputs, driver_place};
pub use liberty::{
    cell_item_place, library_cell_place, library_item_place, library_pin_place, pin_item_place,
    timing_item_place,
};
pub use sdc::constraint_place;
pub use spef::net_block_place;
pub use value::{Values, bad_value_place};
pub use verilog::{
    cell_place, instance_cell_place, instance_place, net_place, pin_place, port_place,
};
