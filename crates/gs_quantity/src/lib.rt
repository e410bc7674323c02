//! Exact quantities: millionths, how they are read and printed, and how they are looked up in tables.
//!
//! What stands above this crate reckons in whole millionths and never in floating point, so this is the one place where
//! a text's decimal number is rounded, and the one where a table's value is.
//!
//! `read_decimal` promises the exact answer for every text of any length: the number that the text writes, rounded once
//! to the nearest millionth, ties away from zero; `NotNumber` for each text that is no decimal number, and `OutOfRange`
//! for each whose rounded magnitude is 2^40 millionths or more. `print_micro` writes a number below that so that it reads
//! back as itself (`printed_reads_back` is that law). `Table::new` promises a table for just the lists that are one, and
//! else the first cause at its first place. `Table::look` promises, for every table and every query, the exact value on
//! the straight lines through the table's points, beyond its ends too, rounded once, ties upward. `Steps` counts for
//! proofs.
//!
//! Cost: reading is linear in the bytes, takes no memory, and stops at the first digits that decide the number; printing
//! grows the given text only. A lookup takes no memory: a search from below on each axis, eight products and one
//! division, which is of 64 bits where the numbers fit, and else a division in floating point whose answer is kept where
//! it proves to be the right one (`bench/lookup` prints the time of a call).
//!
//! Where to change what: the limits of numbers in `limits`, the form of numbers in `spelling` and `specs/Decimal.antt`,
//! rounding in `decimal`, the printed form in `print` and `specs/Print.antt`, lookup in `lookup` and `specs/Lookup.antt`,
//! the refusals of a table in `lookup/fault` and `specs/TableFault.antt`.
#![tactic(auto)]

mod decimal;
mod limits;
mod lookup;
mod micro;
mod print;
mod spelling;
mod steps;
#[cfg(test)]
mod tests;

pub use decimal::read_decimal;
pub use limits::{NUMBER_LIMIT, RANGE_LIMIT, TABLE_LIMIT};
pub use lookup::{Micros, Table, TableErr};
pub use micro::{Mem, Micro, NumErr};
pub use print::{print_micro, printed_reads_back};
pub use steps::Steps;
