ghost use Rattle.std.specs.Prelude.{◌≡◌, ◌<◌, length};
ghost use Rattle.gs_quantity.specs.Lookup.{at};

use crate::micro::Micro;
use gs_list::Rows;

/// A list of quantities.
pub type Micros = Rows<Micro>;

/// The quantity at a place, counted from 0.
#[inline]
pub(crate) fn point(points: &Micros, place: usize) -> Micro
    requires { place < length points.now }
    ensures { result ≡ at points.now place }
{
    *points.at(place)
}
