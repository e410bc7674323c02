//! Lists that own their elements, for all crates of this project.
//!
//! Contracts compare values, and a field of type `Vec` is no plain value to them. So every type that holds a collection
//! holds one of these lists: contracts see `Rows<T>` as a list of `T`, and a crate gives its lists names of their own, as
//! `pub type Names = Rows<Name>;`.
//!
//! - `Rows<T>` is made from a `Vec` and given back as one without taking memory. `at` reads one element, and says which for
//!   every default, so that a caller's definitions may use theirs. A `push` that finds no memory leaves the list and hands
//!   the element back.
//!
//! - `Grouped<T>` is a list of lists in one piece of memory, for the many short lists that a pass over a design reads: the sinks of
//!   each net, the input nets of each instance. `by_key` makes one of items and their keys by counting, in linear time.
//!
//! To give all lists a further call, add it to `src/rows.rt`. A list with an invariant of its own is a type of its own crate.
#![tactic(auto)]

mod grouped;
mod rows;

pub use grouped::Grouped;
pub use rows::Rows;
