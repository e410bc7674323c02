//! Numbers of the line formats: amounts, which may not be negative, and numbers that may, where it doesn't matter why one is
//! refused.
//!
//! `read_amount` and `read_number` read a decimal as `gs_quantity`'s `read_decimal` does, and answer `None` where that refuses the
//! bytes. Their contracts say the value as a function of the bytes, and its range. They take no memory. What a decimal is, how it is rounded and
//! which limit it has stands in `gs_quantity`.
#![tactic(auto)]

mod amount;

pub use amount::{read_amount, read_number};
