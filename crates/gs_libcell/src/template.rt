//! Templates of tables.

ghost use Rattle.std.specs.Prelude.{◌≡◌, ◌≤◌, IfOk, codes, option_copied};
ghost use Rattle.std.specs.BTreeMap.{get};
ghost use Rattle.std.specs.Cmp.Lexicographic.{slice_cmp};
ghost use Rattle.std.specs.Ordering.{nat_cmp};
ghost use Rattle.std.specs.Option.{option_or};
ghost use Rattle.gs_libcell.specs.Attribute.{group_in};
ghost use Rattle.gs_libcell.specs.Unit.{scale};
ghost use Rattle.gs_libcell.specs.Template.{Frame, given_label, is_slew, template_by, template_named, template_of, tens_of, variable_by, variable_in};

use crate::attribute::{group_in, last_simple};
use crate::numbers::{Points, points_in};
use gs_design::Units;
use gs_libtree::{Item, Node};
use gs_text::Name;
use std::alloc::{AllocError, Global};
use std::collections::BTreeMap;
use std::marker::Model;

/// What the points of an axis are.
#[derive(Clone, Copy, Debug, PartialEq, Eq)]
pub enum Variable {
    /// The template gives no variable.
    Absent,
    /// Input slews.
    Slew,
    /// Output loads.
    Load,
    /// Something else.
    Other,
}

/// What a template says of its tables.
#[derive(Drop)]
pub struct Template {
    pub first: Variable,
    pub second: Variable,
    pub index_1: Points,
    pub index_2: Points,
}

/// Whether a name is that of a slew variable.
fn is_slew(text: &Name) -> bool
    ensures { result ≡ is_slew text.now }
{
    text.is(b"input_net_transition") || text.is(b"input_transition_time")
}

fn variable_by(value: Option<&Name>) -> Variable
    ensures { result ≡ variable_by (option_copied value.entry) }
{
    match value {
        None => Variable::Absent,
        Some(text) => {
            if is_slew(text) {
                return Variable::Slew;
            }
            if text.is(b"total_output_net_capacitance") {
                return Variable::Load;
            }
            Variable::Other
        }
    }
}

/// The variable that the simple attribute of the name gives.
fn variable_in(name: &[u8], items: &[Item]) -> Variable
    ensures { result ≡ variable_in name.now items.now }
{
    variable_by(last_simple(name, items))
}

/// The unit of a variable's points, as a power of ten of 1 ps or 1 fF.
pub(crate) fn tens_of(units: Units, variable: Variable) -> u8
    ensures value { result ≡ tens_of (scale units) variable }
    ensures small { result ≤ 9 }
{
    match variable {
        Variable::Absent => 0,
        Variable::Slew => units.time_tens,
        Variable::Load => units.load_tens,
        Variable::Other => 0,
    }
}

/// What a group with these items says as a template.
fn template_of(alloc: Global, units: Units, items: &[Item]) -> Result<Template, AllocError>
    ensures { IfOk result (λ t. t ≡ template_of (scale units) items.now) }
{
    let first = variable_in(b"variable_1", items);
    let second = variable_in(b"variable_2", items);
    let index_1 = points_in(alloc, b"index_1", tens_of(units, first), items)?;
    let index_2 = points_in(alloc, b"index_2", tens_of(units, second), items)?;
    Ok(Template {
        first,
        second,
        index_1,
        index_2,
    })
}

/// The name that a template, or a table for its template, gives.
pub(crate) fn given_label(group: &Node) -> Option<&Name>
    ensures { option_copied result ≡ given_label group.now.args }
{
    match group.args.as_slice() {
        [] => None,
        [first, ..] => Some(first),
    }
}

/// What the parts of a library are read by: its units, and its templates by name. Contracts see the units, and the items
/// among which the templates stand.
#[derive(Drop)]
pub struct Context<'a> {
    units: Units,
    items: &'a [Item],
    templates: BTreeMap<Name, Template>,
}

impl<'a> Model for Context<'a> {
    ghost use Rattle.std.specs.Prelude.{◌≡◌};
    ghost use Rattle.std.specs.BTreeMap.{get};
    ghost use Rattle.std.specs.Cmp.Lexicographic.{slice_cmp};
    ghost use Rattle.std.specs.Ordering.{nat_cmp};
    ghost use Rattle.gs_libcell.specs.Template.{Frame, template_named};
    ghost use Rattle.gs_libcell.specs.Unit.{scale};
    ghost use Rattle.gs_libtree.specs.contracts.tree.Item as item;
    ghost use Rattle.std.specs.Coded.{codes};

    ghost Value = { Frame };

    ghost view = { λ l. record { units = scale l.units; items = l.items.now } };

    ghost invariant = { λ l. (name : _) → get (slice_cmp nat_cmp) l.templates name ≡ template_named (record { units = scale l.units; items = l.items.now }) name };

    ghost coded = { Prim.hlevel (codes, item.the_row.coded) };
}

/// Takes a template into those of earlier items.
fn put_template(
    alloc: Global,
    units: Units,
    item: &Item,
    templates: &mut BTreeMap<Name, Template>,
) -> Result<(), AllocError>
    ensures { IfOk result (λ _. (name : _) → get (slice_cmp nat_cmp) templates.new name ≡ option_or (template_by (scale units) name (group_in (codes "lu_table_template") item.now)) (get (slice_cmp nat_cmp) templates.old name)) }
{
    let Some(group) = group_in(b"lu_table_template", item) else {
        return Ok(());
    };
    let Some(label) = given_label(group) else {
        return Ok(());
    };
    let template = template_of(alloc, units, group.items.as_slice())?;
    let name = Name::copy_of(alloc, label.as_bytes())?;
    templates.insert(name, template)?;
    Ok(())
}

/// The templates among the items, by name.
fn templates_in(
    alloc: Global,
    units: Units,
    items: &[Item],
) -> Result<BTreeMap<Name, Template>, AllocError>
    ensures { IfOk result (λ m. (name : _) → get (slice_cmp nat_cmp) m name ≡ template_named (record { units = scale units; items = items.now }) name) }
{
    let mut templates = BTreeMap::new(alloc);
    for item in items {
        put_template(alloc, units, item, &mut templates)?;
    }
    Ok(templates)
}

impl<'a> Context<'a> {
    /// The units, and the templates among these items.
    pub fn new(alloc: Global, units: Units, items: &'a [Item]) -> Result<Context<'a>, AllocError>
        ensures { IfOk result (λ l. l ≡ record { units = scale units; items = items.now }) }
    {
        let templates = templates_in(alloc, units, items)?;
        Ok(Context {
            units,
            items,
            templates,
        })
    }

    /// The units.
    pub fn units(&self) -> Units
        ensures { scale result ≡ self.now.units }
    {
        self.units
    }

    /// The template of a name.
    pub fn template_named(&self, name: &Name) -> Option<&Template>
        ensures { option_copied result ≡ template_named self.now name.now }
    {
        self.templates.get(name)
    }
}
