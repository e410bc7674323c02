//! Lookup tables of a `timing` group.

ghost use Rattle.std.specs.Prelude.{◌≡◌, ◌≤◌, ◌<◌, ◌+◌, ◌*◌, ◌^◌, ◌==◌, ◌++◌, [], IfOk, Some, length, map, option_copied, unwrap_or};
ghost use Rattle.std.specs.List.{flat_map, range_with_len};
ghost use Rattle.std.specs.Option.{option_and_then};
ghost use Rattle.gs_quantity.specs.Lookup.{at};
ghost use Rattle.gs_libcell.specs.Number.{numbers_of};
ghost use Rattle.gs_libcell.specs.Grid.{axis_of, by_slews, checked, grid_by, grid_in, grid_lists, lists_by, lists_named, lists_of, lists_with, of_one, of_two, one_point, points_given, turned, values_in};

use crate::attribute::{last_complex, last_group};
use crate::numbers::{Points, numbers_of, points_in};
use crate::template::{Context, Template, Variable, given_label, tens_of};
use gs_libtree::{Item, Node};
use gs_quantity::{Micro, Micros, Table};
use gs_text::{Name, Names};
use std::alloc::{AllocError, Global};

/// A table as a `timing` group gives it.
#[derive(Drop)]
pub enum Grid {
    /// The group has no such table.
    Absent,
    /// The template is unknown or has other variables, a variable has no points, or these are no table.
    Bad,
    /// The table.
    Is(Table),
}

/// The lists of a table.
#[derive(Drop)]
pub struct Lists {
    /// The slew points.
    pub xs: Micros,
    /// The load points.
    pub ys: Micros,
    /// The values, row by row over the slew points.
    pub zs: Micros,
}

fn copy_of(alloc: Global, points: &Micros) -> Result<Micros, AllocError>
    ensures { IfOk result (λ m. m ≡ points.now) }
{
    let copy = Vec::from_slice(alloc, points.as_slice())?;
    Ok(Micros::from_vec(copy))
}

fn points_given(alloc: Global, points: &Points) -> Result<Option<Micros>, AllocError>
    ensures { IfOk result (λ p. p ≡ points_given points.now) }
{
    match points {
        Points::Absent => Ok(None),
        Points::Bad => Ok(None),
        Points::Are(points) => {
            let copy = copy_of(alloc, points)?;
            Ok(Some(copy))
        }
    }
}

/// The points of an axis: the table's own, and else the template's.
fn axis_of(alloc: Global, own: Points, templates: &Points) -> Result<Option<Micros>, AllocError>
    ensures { IfOk result (λ p. p ≡ axis_of own templates.now) }
{
    match own {
        Points::Absent => points_given(alloc, templates),
        Points::Bad => Ok(None),
        Points::Are(points) => Ok(Some(points)),
    }
}

fn one_point(alloc: Global) -> Result<Micros, AllocError>
    ensures { IfOk result (λ p. p ≡ one_point) }
{
    let mut points = Vec::new(alloc);
    points.push(Micro(0))?;
    Ok(Micros::from_vec(points))
}

/// The quantity at a place.
fn point(points: &Micros, place: usize) -> Micro
    requires { place < length points.now }
    ensures { result ≡ at points.now place }
{
    *points.at(place)
}

/// Puts a column of values that stand row by row last.
fn push_column(
    rows: usize,
    cols: usize,
    col: usize,
    values: &Micros,
    turned: &mut Vec<Micro>,
) -> Result<(), AllocError>
    requires col { col < cols }
    requires whole { rows * cols ≤ length values.now }
    requires fits { rows * cols < 2 ^ 64 }
    ensures { IfOk result (λ _. turned.new.items ≡ turned.old.items ++ map (λ row. at values.now (row * cols + col)) (range_with_len 0 rows)) }
{
    for row in 0..rows {
        turned.push(point(values, row * cols + col))?;
    }
    Ok(())
}

/// Values that stand row by row, one column after another.
fn turned(alloc: Global, rows: usize, cols: usize, values: &Micros) -> Result<Micros, AllocError>
    requires whole { rows * cols ≤ length values.now }
    requires fits { rows * cols < 2 ^ 64 }
    ensures { IfOk result (λ t. t ≡ turned rows cols values.now) }
{
    let mut turned = Vec::new(alloc);
    for col in 0..cols {
        push_column(rows, cols, col, values, &mut turned)?;
    }
    Ok(Micros::from_vec(turned))
}

/// Whether a number is the product of two others.
fn is_product(number: usize, rows: usize, cols: usize) -> bool
    ensures { result ≡ (number == rows * cols) }
{
    match rows.checked_mul(cols) {
        Some(product) => number == product,
        None => false,
    }
}

/// Values that stand row by row over the load points, in rows over the slew points.
fn by_slews(alloc: Global, xs: &Micros, ys: &Micros, zs: Micros) -> Result<Micros, AllocError>
    ensures { IfOk result (λ t. t ≡ by_slews xs.now ys.now zs) }
{
    if is_product(zs.len(), ys.len(), xs.len()) {
        return turned(alloc, ys.len(), xs.len(), &zs);
    }
    Ok(zs)
}

fn of_one(
    alloc: Global,
    first: Variable,
    ps: Micros,
    zs: Micros,
) -> Result<Option<Lists>, AllocError>
    ensures { IfOk result (λ l. l ≡ of_one first ps zs) }
{
    match first {
        Variable::Absent => Ok(None),
        Variable::Slew => {
            let ys = one_point(alloc)?;
            Ok(Some(Lists { xs: ps, ys, zs }))
        }
        Variable::Load => {
            let xs = one_point(alloc)?;
            Ok(Some(Lists { xs, ys: ps, zs }))
        }
        Variable::Other => Ok(None),
    }
}

fn of_two(
    alloc: Global,
    first: Variable,
    second: Variable,
    ps: Micros,
    qs: Micros,
    zs: Micros,
) -> Result<Option<Lists>, AllocError>
    ensures { IfOk result (λ l. l ≡ of_two first second ps qs zs) }
{
    match (first, second) {
        (Variable::Slew, Variable::Load) => Ok(Some(Lists { xs: ps, ys: qs, zs })),
        (Variable::Load, Variable::Slew) => {
            let zs = by_slews(alloc, &qs, &ps, zs)?;
            Ok(Some(Lists { xs: qs, ys: ps, zs }))
        }
        (Variable::Slew, Variable::Absent) => Ok(None),
        (Variable::Slew, Variable::Slew) => Ok(None),
        (Variable::Slew, Variable::Other) => Ok(None),
        (Variable::Load, Variable::Absent) => Ok(None),
        (Variable::Load, Variable::Load) => Ok(None),
        (Variable::Load, Variable::Other) => Ok(None),
        (Variable::Absent, _) => Ok(None),
        (Variable::Other, _) => Ok(None),
    }
}

/// The lists of a table of one variable.
fn with_one(
    alloc: Global,
    template: &Template,
    own: Points,
    zs: Micros,
) -> Result<Option<Lists>, AllocError>
    ensures { IfOk result (λ l. l ≡ option_and_then (λ ps. of_one template.now.first ps zs) (axis_of own template.now.index_1)) }
{
    let axis = axis_of(alloc, own, &template.index_1)?;
    match axis {
        None => Ok(None),
        Some(ps) => of_one(alloc, template.first, ps, zs),
    }
}

/// The lists of a table of two variables.
fn with_two(
    alloc: Global,
    template: &Template,
    second: Variable,
    own_1: Points,
    own_2: Points,
    zs: Micros,
) -> Result<Option<Lists>, AllocError>
    ensures { IfOk result (λ l. l ≡ option_and_then (λ ps. option_and_then (λ qs. of_two template.now.first second ps qs zs) (axis_of own_2 template.now.index_2)) (axis_of own_1 template.now.index_1)) }
{
    let axis_1 = axis_of(alloc, own_1, &template.index_1)?;
    let axis_2 = axis_of(alloc, own_2, &template.index_2)?;
    match axis_1 {
        None => Ok(None),
        Some(ps) => match axis_2 {
            None => Ok(None),
            Some(qs) => of_two(alloc, template.first, second, ps, qs, zs),
        },
    }
}

fn lists_with(
    alloc: Global,
    template: &Template,
    own_1: Points,
    own_2: Points,
    zs: Micros,
) -> Result<Option<Lists>, AllocError>
    ensures { IfOk result (λ l. l ≡ lists_with template.now template.now.second own_1 own_2 zs) }
{
    match template.second {
        Variable::Absent => with_one(alloc, template, own_1, zs),
        Variable::Slew => with_two(alloc, template, Variable::Slew, own_1, own_2, zs),
        Variable::Load => with_two(alloc, template, Variable::Load, own_1, own_2, zs),
        Variable::Other => Ok(None),
    }
}

fn lists_by(
    alloc: Global,
    lib: &Context,
    template: Option<&Template>,
    items: &[Item],
    zs: Micros,
) -> Result<Option<Lists>, AllocError>
    ensures { IfOk result (λ l. l ≡ lists_by lib.now (option_copied template.entry) items.now zs) }
{
    let Some(template) = template else {
        return Ok(None);
    };
    let own_1 = points_in(
        alloc,
        b"index_1",
        tens_of(lib.units(), template.first),
        items,
    )?;
    let own_2 = points_in(
        alloc,
        b"index_2",
        tens_of(lib.units(), template.second),
        items,
    )?;
    lists_with(alloc, template, own_1, own_2, zs)
}

/// The lists of a table of one value.
fn of_scalar(alloc: Global, zs: Micros) -> Result<Lists, AllocError>
    ensures { IfOk result (λ l. l ≡ record { xs = one_point; ys = one_point; zs = zs }) }
{
    let xs = one_point(alloc)?;
    let ys = one_point(alloc)?;
    Ok(Lists { xs, ys, zs })
}

fn lists_named(
    alloc: Global,
    lib: &Context,
    name: Option<&Name>,
    items: &[Item],
    zs: Micros,
) -> Result<Option<Lists>, AllocError>
    ensures { IfOk result (λ l. l ≡ lists_named lib.now (option_copied name.entry) items.now zs) }
{
    let Some(name) = name else {
        return Ok(None);
    };
    if name.is(b"scalar") {
        let lists = of_scalar(alloc, zs)?;
        return Ok(Some(lists));
    }
    lists_by(alloc, lib, lib.template_named(name), items, zs)
}

/// The numbers of some texts, none of them where there are no texts.
fn values_of(alloc: Global, tens: u8, texts: Option<&Names>) -> Result<Option<Micros>, AllocError>
    requires { tens ≤ 9 }
    ensures { IfOk result (λ v. v ≡ numbers_of tens (unwrap_or (option_copied texts.entry) [])) }
{
    let Some(texts) = texts else {
        return Ok(Some(Micros::from_vec(Vec::new(alloc))));
    };
    numbers_of(alloc, tens, texts.as_slice())
}

/// The numbers of `values`.
fn values_in(alloc: Global, tens: u8, items: &[Item]) -> Result<Option<Micros>, AllocError>
    requires { tens ≤ 9 }
    ensures { IfOk result (λ v. v ≡ values_in tens items.now) }
{
    values_of(alloc, tens, last_complex(b"values", items))
}

/// The lists that a table's group gives.
fn lists_of(alloc: Global, lib: &Context, group: &Node) -> Result<Option<Lists>, AllocError>
    ensures { IfOk result (λ l. l ≡ lists_of lib.now group.now) }
{
    let values = values_in(alloc, lib.units().time_tens, group.items.as_slice())?;
    match values {
        None => Ok(None),
        Some(zs) => lists_named(alloc, lib, given_label(group), group.items.as_slice(), zs),
    }
}

/// The table of these lists.
fn checked(lists: Option<Lists>) -> Grid
    ensures { grid_lists result ≡ checked lists }
{
    match lists {
        None => Grid::Bad,
        Some(lists) => table_of(lists),
    }
}

fn table_of(lists: Lists) -> Grid
    ensures { grid_lists result ≡ checked (Some lists) }
{
    let Lists { xs, ys, zs } = lists;
    match Table::new(xs.into_vec(), ys.into_vec(), zs.into_vec()) {
        Ok(table) => Grid::Is(table),
        Err(_) => Grid::Bad,
    }
}

fn grid_by(alloc: Global, lib: &Context, group: Option<&Node>) -> Result<Grid, AllocError>
    ensures { IfOk result (λ g. grid_lists g ≡ grid_by lib.now (option_copied group.entry)) }
{
    let Some(group) = group else {
        return Ok(Grid::Absent);
    };
    let lists = lists_of(alloc, lib, group)?;
    Ok(checked(lists))
}

/// The table of the name.
pub fn grid_in(
    alloc: Global,
    lib: &Context,
    name: &[u8],
    items: &[Item],
) -> Result<Grid, AllocError>
    ensures { IfOk result (λ g. grid_lists g ≡ grid_in lib.now name.now items.now) }
{
    grid_by(alloc, lib, last_group(name, items))
}
