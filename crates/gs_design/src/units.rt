//! Units of a library.
#![tactic(auto)]

ghost use Rattle.std.specs.Prelude.{◌≤◌};

/// The units in which a library, and the constraints beside it, give times and loads. Each number is at most 9.
#[derive(Clone, Copy, Debug, PartialEq, Eq)]
pub struct Units {
    /// A time is in units of 10 to this power of 1 ps (`time_unit`).
    pub time_tens: u8,
    /// A load is in units of 10 to this power of 1 fF (`capacitive_load_unit`).
    pub load_tens: u8,
    pub ghost time_small: { time_tens ≤ 9 },
    pub ghost load_small: { load_tens ≤ 9 },
}
