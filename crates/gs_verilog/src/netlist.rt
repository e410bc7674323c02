//! A netlist.
#![tactic(auto)]

ghost use Rattle.std.specs.Prelude.{◌≡◌};
ghost use Rattle.gs_verilog.specs.Circuit.{IsNetlist};

use crate::parts::{Port, Ports, RawInst, RawInsts};
use gs_text::{Name, Names};
use std::marker::Model;

/// One module's netlist. Nets are numbered from 0 by first appearance, instances and ports stand in the text's order.
///
/// Every netlist keeps that each net number in it is a place in `nets` and the names there differ, that no name has a
/// direction twice, no two instances have one name, no pin is connected twice in one instance, and no instance's name
/// is empty or holds white.
#[derive(Debug, Drop)]
pub struct Netlist {
    /// The module's name.
    pub name: Name,
    /// The nets that have a direction.
    pub ports: Ports,
    /// The names of the nets.
    pub nets: Names,
    /// The instances.
    pub insts: RawInsts,
}

impl Model for Netlist {
    ghost use Rattle.gs_verilog.specs.Circuit.{Circuit, IsNetlist};

    ghost Value = { Circuit };

    ghost view = { λ n. record { name = n.name; ports = n.ports; nets = n.nets; insts = n.insts } };

    ghost invariant = { λ n. IsNetlist (record { name = n.name; ports = n.ports; nets = n.nets; insts = n.insts }) };
}

impl Netlist {
    /// The module's name.
    pub fn name(&self) -> &[u8]
        ensures { result.now ≡ self.now.name }
    {
        self.name.as_bytes()
    }

    /// The nets that have a direction, in the order of their declarations.
    pub fn ports(&self) -> &[Port]
        ensures { result.now ≡ self.now.ports }
    {
        self.ports.as_slice()
    }

    /// The names of the nets, by number.
    pub fn nets(&self) -> &[Name]
        ensures { result.now ≡ self.now.nets }
    {
        self.nets.as_slice()
    }

    /// The instances, in the text's order.
    pub fn insts(&self) -> &[RawInst]
        ensures value { result.now ≡ self.now.insts }
        ensures kept { IsNetlist self.now }
    {
        self.insts.as_slice()
    }
}
