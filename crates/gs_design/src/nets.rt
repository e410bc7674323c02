//! The nets of a design.
#![tactic(auto)]

ghost use Rattle.std.specs.Prelude.{◌≡◌, ◌<◌, length, slice_index_or};
ghost use Rattle.gs_design.specs.Nets.{AreNets, net_at, nets_of, row_at};

use crate::ids::NetId;
use crate::named::name_at;
use crate::rows::NetRow;
use crate::sink::{Driver, Sink};
use gs_list::{Grouped, Rows};
use gs_quantity::Micro;
use gs_text::{Name, Names};
use std::marker::Model;

/// The nets of a design, by number. Contracts see a list of nets, each with its `name`, the capacitance `wire` of its wire, the load
/// `port_load` at the port, input or output, that it is, its `driver` and its `sinks`.
///
/// In memory the numbers that timing reads lie apart from the names, and the sinks of all nets one after another.
#[derive(Drop)]
pub struct Nets {
    rows: Rows<NetRow>,
    sinks: Grouped<Sink>,
    names: Names,
}

impl Model for Nets {
    ghost use Rattle.std.specs.Prelude.{List};
    ghost use Rattle.gs_design.specs.Nets.{AreNets, Net, nets_of};

    ghost Value = { List Net };

    ghost view = { λ n. nets_of n.rows n.sinks n.names };

    ghost invariant = { λ n. AreNets n.rows n.sinks n.names };
}

impl Nets {
    /// The nets of these columns: a row and the sinks of each net, and the names. It takes no memory.
    pub fn new(rows: Rows<NetRow>, sinks: Grouped<Sink>, names: Names) -> Nets
        requires { AreNets rows sinks names }
        ensures { result ≡ nets_of rows sinks names }
    {
        Nets { rows, sinks, names }
    }

    /// How many nets there are.
    pub fn len(&self) -> usize
        ensures { result ≡ length self.now }
    {
        self.rows.len()
    }

    /// The name of a net.
    pub fn name(&self, net: NetId) -> &Name
        requires { net < length self.now }
        ensures { result.now ≡ (net_at self.now net).name }
    {
        name_at(&self.names, net.index())
    }

    /// The capacitance of a net's wire, in millionths of 1 fF.
    #[inline]
    pub fn wire(&self, net: NetId) -> Micro
        requires { net < length self.now }
        ensures { result ≡ (net_at self.now net).wire }
    {
        self.rows.at(net.index()).wire
    }

    /// The load at the port, input or output, that a net is, in millionths of 1 fF; 0 where there is none.
    #[inline]
    pub fn port_load(&self, net: NetId) -> Micro
        requires { net < length self.now }
        ensures { result ≡ (net_at self.now net).port_load }
    {
        self.rows.at(net.index()).port_load
    }

    /// What drives a net.
    #[inline]
    pub fn driver(&self, net: NetId) -> &Driver
        requires { net < length self.now }
        ensures { result.now ≡ (net_at self.now net).driver }
    {
        &self.rows.at(net.index()).driver
    }

    /// The input pins on a net, by instance and pin.
    #[inline]
    pub fn sinks(&self, net: NetId) -> &[Sink]
        requires { net < length self.now }
        ensures { result.now ≡ (net_at self.now net).sinks }
    {
        self.sinks.at(net.index())
    }
}
