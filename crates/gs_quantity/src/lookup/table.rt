ghost use Rattle.gs_quantity.specs.Lookup.{IsTable};

use crate::lookup::micros::Micros;

/// Values over slew points and load points, row by row over the slew points: the value at the slew point `i` and the load
/// point `j` is at `i` times the number of load points, plus `j`. An axis has 1 to 64 points, each above the one before
/// it, and every magnitude is below 2^34 millionths.
#[derive(Drop)]
pub struct Table {
    /// The slew points.
    pub xs: Micros,
    /// The load points.
    pub ys: Micros,
    /// The values.
    pub zs: Micros,
    pub ghost well: { IsTable xs ys zs },
}
