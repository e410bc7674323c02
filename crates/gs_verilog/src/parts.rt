//! What a netlist is made of.
#![tactic(auto)]

use gs_list::Rows;
use gs_text::Name;

/// A name that a declaration gives a direction.
#[derive(Clone, Copy, Debug, PartialEq, Eq)]
pub struct Port {
    /// The number of the net, its place in the netlist's list of nets.
    pub net: u32,
    /// Whether it is an input; else it is an output.
    pub input: bool,
}

/// A connection of an instance.
#[derive(Debug, Drop)]
pub struct Link {
    /// The name of the cell's pin, as it is written.
    pub pin: Name,
    /// The number of the net, its place in the netlist's list of nets.
    pub net: u32,
}

/// Ports, in the order of their declarations.
pub type Ports = Rows<Port>;

/// The connections of one instance, in the order of the text.
pub type Links = Rows<Link>;

/// An instance, as it is written. Whether its cell is in a library isn't judged here.
#[derive(Debug, Drop)]
pub struct RawInst {
    pub name: Name,
    pub cell: Name,
    pub links: Links,
}

/// Instances, in the order of the text.
pub type RawInsts = Rows<RawInst>;
