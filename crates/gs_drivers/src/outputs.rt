//! Which pins drive.

ghost use Rattle.std.specs.Prelude.{◌≡◌};
ghost use Rattle.gs_design.specs.Load.{output_pin};
ghost use Rattle.gs_drivers.specs.Outputs.{drives};

use gs_design::{Cell, CellPin};
use gs_locate::Outputs;

/// The output of a cell.
fn output_of(cell: &Cell) -> &CellPin
    ensures { result.now ≡ output_pin cell.now }
{
    cell.pins.at(cell.pins.len() - 1)
}

/// Whether the pin is the output of the first of the cells with the name.
fn drives_by(cells: &[Cell], name: &[u8], pin: &[u8]) -> bool
    ensures { result ≡ drives cells.now name.now pin.now }
{
    for cell in cells {
        if cell.name.is(name) {
            return output_of(cell).name.is(pin);
        }
    }
    false
}

/// The outputs of a library's cells.
#[derive(Drop)]
pub(crate) struct CellOutputs<'a> {
    pub(crate) cells: &'a [Cell],
}

impl<'a> Outputs for CellOutputs<'a> {
    ghost use Rattle.gs_drivers.specs.Outputs.{drives};

    ghost drives = { λ s. drives s.cells.now };

    fn drives(&self, cell: &[u8], pin: &[u8]) -> bool {
        drives_by(self.cells, cell, pin)
    }
}
