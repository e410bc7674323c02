use std::alloc::AllocError;
use std::marker::Model;

/// A quantity in millionths: of 1 ps for times, of 1 fF for capacitances, of the library's unit for leakage and area.
#[derive(Clone, Copy, Debug, PartialEq, Eq, PartialOrd, Ord)]
pub struct Micro(pub i64);

impl Model for Micro {
    ghost use Rattle.std.specs.Prelude.{ℤ};

    ghost Value = { ℤ };

    ghost view = { λ m. m.0 };

    ghost inverse = { λ z. record { 0 = z } };
}

/// Want of memory.
#[derive(Clone, Copy, Debug, PartialEq, Eq)]
pub struct Mem;

impl From<AllocError> for Mem {
    fn from(_error: AllocError) -> Self {
        Mem
    }
}

/// Why bytes were not read as a number.
#[derive(Clone, Copy, Debug, PartialEq, Eq)]
pub enum NumErr {
    /// The bytes are not of a decimal number's form.
    NotNumber,
    /// The magnitude, rounded, is 2^40 millionths or more.
    OutOfRange,
}
