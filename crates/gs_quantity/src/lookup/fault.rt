// Why three lists are no table.
ghost use Rattle.std.specs.Prelude.{◌≡◌, ◌+◌, ◌*◌, ◌<◌, ◌≤◌, Bool, length, Option, IfSome};
ghost use Rattle.gs_quantity.specs.TableFault.{falls, is_wide, first_place, bad_axis, bad_shape, table_fault};

use crate::limits::TABLE_LIMIT;
use crate::lookup::micros::{Micros, point};

/// Why lists are no table. Places are counted from 0 through the slew points, then on through the load points, then on
/// through the values.
#[derive(Clone, Copy, Debug, PartialEq, Eq)]
pub enum TableErr {
    /// An axis has no point or more than 64, or the number of values isn't the product of the numbers of points.
    Shape,
    /// The point at this place isn't above the one before it.
    NotRising { i: u32 },
    /// The magnitude at this place is 2^34 millionths or more.
    TooWide { i: u32 },
}

fn is_fall(points: &Micros, place: usize) -> bool
    requires { place < length points.now }
    ensures { result ≡ falls points.now place }
{
    place > 0 && point(points, place).0 <= point(points, place - 1).0
}

fn is_wide_at(values: &Micros, place: usize) -> bool
    requires { place < length values.now }
    ensures { result ≡ is_wide values.now place }
{
    point(values, place).0.unsigned_abs() >= TABLE_LIMIT
}

fn first_fall(points: &Micros) -> Option<usize>
    ensures value { result ≡ first_place (falls points.now) 0 (length points.now) }
    ensures within { IfSome result (λ i. i < length points.now) }
{
    for place in 0..points.len() {
        if is_fall(points, place) {
            return Some(place);
        }
    }
    None
}

fn first_wide(values: &Micros) -> Option<usize>
    ensures value { result ≡ first_place (is_wide values.now) 0 (length values.now) }
    ensures within { IfSome result (λ i. i < length values.now) }
{
    for place in 0..values.len() {
        if is_wide_at(values, place) {
            return Some(place);
        }
    }
    None
}

fn is_bad_axis(points: &Micros) -> bool
    ensures { result ≡ bad_axis points.now }
{
    points.len() == 0 || points.len() > 64
}

fn is_bad_shape(xs: &Micros, ys: &Micros, zs: &Micros) -> bool
    ensures { result ≡ bad_shape xs.now ys.now zs.now }
{
    if is_bad_axis(xs) || is_bad_axis(ys) {
        return true;
    }
    zs.len() != xs.len() * ys.len()
}

/// The first cause why the lists are no table, if there is one.
pub fn fault(xs: &Micros, ys: &Micros, zs: &Micros) -> Option<TableErr>
    ensures { result ≡ table_fault xs.now ys.now zs.now }
{
    if is_bad_shape(xs, ys, zs) {
        return Some(TableErr::Shape);
    }
    if let Some(i) = first_fall(xs) {
        return Some(TableErr::NotRising { i: i as u32 });
    }
    if let Some(i) = first_fall(ys) {
        return Some(TableErr::NotRising {
            i: (xs.len() + i) as u32,
        });
    }
    if let Some(i) = first_wide(xs) {
        return Some(TableErr::TooWide { i: i as u32 });
    }
    if let Some(i) = first_wide(ys) {
        return Some(TableErr::TooWide {
            i: (xs.len() + i) as u32,
        });
    }
    if let Some(i) = first_wide(zs) {
        return Some(TableErr::TooWide {
            i: (xs.len() + ys.len() + i) as u32,
        });
    }
    None
}
