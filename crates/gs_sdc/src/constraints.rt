//! Constraints.
#![tactic(auto)]

ghost use Rattle.std.specs.Prelude.{◌≡◌};
ghost use Rattle.gs_sdc.specs.Terms.{AreTerms};

use gs_list::Rows;
use gs_quantity::Micro;
use gs_text::{Name, Names};
use std::marker::Model;

/// A value of a port: a delay in millionths of 1 ps, or a load in millionths of 1 fF.
#[derive(Debug, Drop)]
pub struct PortValue {
    pub port: Name,
    pub value: Micro,
}

/// Values of ports, in the text's order.
pub type PortValues = Rows<PortValue>;

/// The cell that drives a port from outside, with the transitions at its inputs in millionths of 1 ps.
#[derive(Debug, Drop)]
pub struct DriverSpec {
    pub port: Name,
    /// The driving cell.
    pub cell: Name,
    /// The cell's output pin, where it is given.
    pub pin: Option<Name>,
    /// The transition of the rising edge at each input.
    pub rise: Micro,
    /// The transition of the falling edge at each input.
    pub fall: Micro,
}

/// Driving cells of ports, in the text's order.
pub type Drivers = Rows<DriverSpec>;

/// A clock, with the ports at which it enters.
#[derive(Debug, Drop)]
pub struct Clock {
    pub period: Micro,
    pub names: Names,
}

/// The constraints of a design: one clock, and what its ports see.
///
/// Constraints keep that no port has two values of one kind, that each number's magnitude is below 2^40 millionths, and that
/// loads and transitions aren't negative.
#[derive(Debug, Drop)]
pub struct Constraints {
    /// The clock's period, in millionths of 1 ps.
    pub period: Micro,
    /// The ports at which the clock enters; one may stand twice.
    pub clock_ports: Names,
    /// The input delays.
    pub inputs: PortValues,
    /// The output delays.
    pub outputs: PortValues,
    /// The loads of ports.
    pub loads: PortValues,
    /// The driving cells of ports.
    pub drivers: Drivers,
    /// The greatest area, in millionths of the library's unit. No command sets it today.
    pub max_area: Option<Micro>,
}

impl Model for Constraints {
    ghost use Rattle.gs_sdc.specs.Terms.{AreTerms, Terms};

    ghost Value = { Terms };

    ghost view = { λ c. record { period = c.period; clock_ports = c.clock_ports; inputs = c.inputs; outputs = c.outputs; loads = c.loads; drivers = c.drivers; max_area = c.max_area } };

    ghost invariant = { λ c. AreTerms (record { period = c.period; clock_ports = c.clock_ports; inputs = c.inputs; outputs = c.outputs; loads = c.loads; drivers = c.drivers; max_area = c.max_area }) };
}

impl Constraints {
    /// The clock's period, in millionths of 1 ps.
    pub fn period(&self) -> Micro
        ensures value { result ≡ self.now.period }
        ensures kept { AreTerms self.now }
    {
        self.period
    }

    /// The ports at which the clock enters.
    pub fn clock_ports(&self) -> &[Name]
        ensures { result.now ≡ self.now.clock_ports }
    {
        self.clock_ports.as_slice()
    }

    /// The input delays, in the text's order.
    pub fn inputs(&self) -> &[PortValue]
        ensures { result.now ≡ self.now.inputs }
    {
        self.inputs.as_slice()
    }

    /// The output delays, in the text's order.
    pub fn outputs(&self) -> &[PortValue]
        ensures { result.now ≡ self.now.outputs }
    {
        self.outputs.as_slice()
    }

    /// The loads of ports, in the text's order.
    pub fn loads(&self) -> &[PortValue]
        ensures { result.now ≡ self.now.loads }
    {
        self.loads.as_slice()
    }

    /// The driving cells of ports, in the text's order.
    pub fn drivers(&self) -> &[DriverSpec]
        ensures { result.now ≡ self.now.drivers }
    {
        self.drivers.as_slice()
    }

    /// The greatest area, where it is given.
    pub fn max_area(&self) -> Option<Micro>
        ensures { result ≡ self.now.max_area }
    {
        self.max_area
    }
}
