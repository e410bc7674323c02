//! What a design is built of.
#![tactic(auto)]

use crate::values::Values;
use gs_design::{Ends, Insts, NetIds, Nets, Numbers};
use gs_list::Rows;

/// The nets that are kept, and what is known of each net of the netlist.
#[derive(Drop)]
pub struct Numbering {
    /// The new number of each net.
    pub numbers: Rows<u32>,
    /// The nets that are kept.
    pub used: Rows<u32>,
    /// What is given for each net.
    pub values: Values,
}

/// The parts of a design that are built.
#[derive(Drop)]
pub struct Pieces {
    /// The instances.
    pub insts: Insts,
    /// The nets.
    pub nets: Nets,
    /// The endpoints.
    pub ends: Ends,
    /// The nets in their order.
    pub order: NetIds,
    /// The place of each net in it.
    pub ranks: Numbers,
}
