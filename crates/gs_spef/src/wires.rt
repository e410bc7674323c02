//! Wires.
#![tactic(auto)]

ghost use Rattle.std.specs.Prelude.{◌≡◌};
ghost use Rattle.gs_spef.specs.Wires.{IsWires};

use gs_list::Rows;
use gs_quantity::Micro;
use gs_text::Name;
use std::marker::Model;

/// A net with its wire's capacitance.
#[derive(Debug, Drop)]
pub struct Wire {
    /// The net's name.
    pub net: Name,
    /// The wire's whole capacitance, in millionths of 1 fF.
    pub total: Micro,
}

/// The wires of a text, in its order.
///
/// Wires keep that the nets differ, and that no total is negative or 2^40 millionths of 1 fF or more.
#[derive(Debug, Drop)]
pub struct Wires {
    list: Rows<Wire>,
}

impl Model for Wires {
    ghost use Rattle.std.specs.Prelude.{List};
    ghost use Rattle.gs_spef.specs.Wires.{IsWires};
    ghost use Rattle.gs_spef.specs.declared.wires.Wire.{Wire};

    ghost Value = { List Wire };

    ghost view = { λ w. w.list };

    ghost invariant = { λ w. IsWires w.list };
}

impl Wires {
    /// The wires, in the text's order.
    pub fn as_slice(&self) -> &[Wire]
        ensures value { result.now ≡ self.now }
        ensures kept { IsWires self.now }
    {
        self.list.as_slice()
    }

    /// These wires.
    pub fn from_vec(wires: Vec<Wire>) -> Wires
        requires { IsWires wires.items }
        ensures { result ≡ wires.items }
    {
        Wires {
            list: Rows::from_vec(wires),
        }
    }
}
