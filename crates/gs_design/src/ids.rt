//! Numbers of instances, nets and cells.
#![tactic(auto)]

ghost use Rattle.std.specs.Prelude.{◌≡◌};

use std::marker::Model;

/// An instance of a design: its place in netlist order, from 0. Contracts see the number.
#[derive(Clone, Copy, Debug, PartialEq, Eq, PartialOrd, Ord)]
pub struct InstId(pub u32);

impl Model for InstId {
    ghost use Rattle.std.specs.Prelude.{ℕ};

    ghost Value = { ℕ };

    ghost view = { λ i. i.0 };

    ghost inverse = { λ n. record { 0 = n } };
}

/// A net of a design: its place in the design's list of nets, from 0. Contracts see the number.
#[derive(Clone, Copy, Debug, PartialEq, Eq, PartialOrd, Ord)]
pub struct NetId(pub u32);

impl Model for NetId {
    ghost use Rattle.std.specs.Prelude.{ℕ};

    ghost Value = { ℕ };

    ghost view = { λ i. i.0 };

    ghost inverse = { λ n. record { 0 = n } };
}

/// A cell of a design: its place in the design's list of cells, from 0. Contracts see the number.
#[derive(Clone, Copy, Debug, PartialEq, Eq, PartialOrd, Ord)]
pub struct CellId(pub u32);

impl Model for CellId {
    ghost use Rattle.std.specs.Prelude.{ℕ};

    ghost Value = { ℕ };

    ghost view = { λ i. i.0 };

    ghost inverse = { λ n. record { 0 = n } };
}

impl InstId {
    /// The number.
    #[inline]
    pub fn number(self) -> u32
        ensures { result ≡ self }
    {
        self.0
    }

    /// The number, as a place in a list.
    #[inline]
    pub fn index(self) -> usize
        ensures { result ≡ self }
    {
        self.0 as usize
    }
}

impl NetId {
    /// The number.
    #[inline]
    pub fn number(self) -> u32
        ensures { result ≡ self }
    {
        self.0
    }

    /// The number, as a place in a list.
    #[inline]
    pub fn index(self) -> usize
        ensures { result ≡ self }
    {
        self.0 as usize
    }
}

impl CellId {
    /// The number.
    #[inline]
    pub fn number(self) -> u32
        ensures { result ≡ self }
    {
        self.0
    }

    /// The number, as a place in a list.
    #[inline]
    pub fn index(self) -> usize
        ensures { result ≡ self }
    {
        self.0 as usize
    }
}
