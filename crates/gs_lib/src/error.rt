//! Why a library isn't read.

use gs_text::Name;
use std::alloc::{AllocError, AllocFailed};

/// What is missing.
#[derive(Clone, Copy, Debug, PartialEq, Eq, Drop)]
pub enum What {
    /// The root isn't a library.
    Library,
    /// A cell's `cell_leakage_power`.
    Leakage,
    /// The `capacitance` of an input.
    Capacitance,
    /// The `related_pin` of a `timing` group, or an input that it names.
    RelatedPin,
    /// The table `cell_rise` of a `timing` group.
    CellRise,
    /// The table `cell_fall`.
    CellFall,
    /// The table `rise_transition`.
    RiseTransition,
    /// The table `fall_transition`.
    FallTransition,
}

/// Why a library isn't read. A cell is told by its name, which is empty where it is the library itself that is at fault.
#[derive(Debug, PartialEq, Eq, Drop)]
pub enum LibErr {
    /// The cell lacks this.
    Missing { cell: Name, what: What },
    /// `time_unit` or `capacitive_load_unit` is missing.
    NoUnit,
    /// One of the units of time, capacitance and leakage isn't of its form.
    BadUnit,
    /// A number outside of the tables is no decimal number, is negative or is out of range.
    BadNumber { cell: Name },
    /// An earlier cell has the name.
    TwoCells { name: Name },
    /// Table `i` of the cell is none, counted from 0 over its `timing` groups that aren't passed over, four for each.
    BadTable { cell: Name, i: u32 },
    /// There are more than 65,535 cells, or more than 1,024 that may take each other's place.
    TooMany,
    /// Memory ran out.
    Mem,
}

impl<T: Drop> From<AllocFailed<T>> for LibErr {
    ghost use Rattle.std.specs.Prelude.{◌≡◌};
    ghost use Rattle.gs_lib.specs.declared.error.LibErr.{LibErr};

    ghost from_gives = { λ _ error. error ≡ LibErr.Mem };

    fn from(_error: AllocFailed<T>) -> LibErr {
        LibErr::Mem
    }
}

impl From<AllocError> for LibErr {
    ghost use Rattle.std.specs.Prelude.{◌≡◌};
    ghost use Rattle.gs_lib.specs.declared.error.LibErr.{LibErr};

    ghost from_gives = { λ _ error. error ≡ LibErr.Mem };

    fn from(_error: AllocError) -> LibErr {
        LibErr::Mem
    }
}
