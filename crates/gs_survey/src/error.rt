//! Why four parsed files make no design.
#![tactic(auto)]

use gs_text::{Name, Names};
use std::alloc::{AllocError, AllocFailed};

/// What a design may have too many of.
#[derive(Clone, Copy, Debug, PartialEq, Eq)]
pub enum Counted {
    /// Instances, of which there are fewer than 2^21.
    Instances,
    /// Nets, of which there are fewer than 2^22, those that nothing uses among them.
    Nets,
    /// Connected pins, of which there are fewer than 2^23.
    Pins,
}

/// Why four parsed files make no design.
#[derive(Debug, Drop)]
pub enum LinkErr {
    /// The library doesn't have the cell of an instance, or of a driving cell of a port, or the driving cell is a flip-flop. `by` is
    /// the instance or the port.
    UnknownCell { by: Name },
    /// The cell of an instance has no such pin, or the pin isn't the output of the driving cell of a port. `by` is the instance or the
    /// port.
    UnknownPin { by: Name, pin: Name },
    /// An instance leaves a pin of its cell open.
    OpenPin { inst: Name, pin: Name },
    /// More than one output pin or input port drives a net.
    TwoDrivers { net: Name },
    /// A net with a sink or an output port has no driver.
    Undriven { net: Name },
    /// A constraint names no port, an input delay or a clock no input port, or an output delay no output port.
    UnknownPort { name: Name },
    /// A wire is of no net of the netlist.
    UnknownNet { name: Name },
    /// A gate that is used, as the cell of an instance, as one of its alternatives or as a driving cell, has an input without an arc.
    NoArc { cell: Name, pin: Name },
    /// There are too many of these; `count` is their number.
    TooMany { what: Counted, count: u64 },
    /// The gates have a cycle: these nets in turn, each an input of the gate that drives the next, and the last of the one that drives the
    /// first. The first is the one that the netlist names first.
    Loop { cycle: Names },
    /// Memory ran out.
    Mem,
}

impl From<AllocError> for LinkErr {
    ghost use Rattle.std.specs.Prelude.{◌≡◌};
    ghost use Rattle.gs_survey.specs.declared.error.LinkErr.TheVariants.{Mem};

    ghost from_gives = { λ _ e. e ≡ Mem };

    fn from(_: AllocError) -> LinkErr {
        LinkErr::Mem
    }
}

impl<T: Drop> From<AllocFailed<T>> for LinkErr {
    ghost use Rattle.std.specs.Prelude.{◌≡◌};
    ghost use Rattle.gs_survey.specs.declared.error.LinkErr.TheVariants.{Mem};

    ghost from_gives = { λ _ e. e ≡ Mem };

    fn from(_: AllocFailed<T>) -> LinkErr {
        LinkErr::Mem
    }
}
