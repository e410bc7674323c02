//! Attributes and groups, by name.

ghost use Rattle.std.specs.Prelude.{◌≡◌, option_copied};
ghost use Rattle.gs_libcell.specs.Attribute.{complex_value, group_in, label_of, last_complex, last_group, last_simple, simple_value};

use gs_libtree::{Item, Node};
use gs_text::{Name, Names};

/// The value of an item that is a simple attribute of the name.
fn simple_value<'a>(name: &[u8], item: &'a Item) -> Option<&'a Name>
    ensures { option_copied result ≡ simple_value name.now item.now }
{
    match item {
        Item::Simple {
            name: called,
            value,
        } => {
            if called.is(name) {
                return Some(value);
            }
            None
        }
        Item::Complex { .. } => None,
        Item::Sub(_) => None,
    }
}

/// The values of an item that is a complex attribute of the name.
fn complex_value<'a>(name: &[u8], item: &'a Item) -> Option<&'a Names>
    ensures { option_copied result ≡ complex_value name.now item.now }
{
    match item {
        Item::Simple { .. } => None,
        Item::Complex {
            name: called,
            values,
        } => {
            if called.is(name) {
                return Some(values);
            }
            None
        }
        Item::Sub(_) => None,
    }
}

/// The item, where it is a group of the name.
pub fn group_in<'a>(name: &[u8], item: &'a Item) -> Option<&'a Node>
    ensures { option_copied result ≡ group_in name.now item.now }
{
    match item {
        Item::Simple { .. } => None,
        Item::Complex { .. } => None,
        Item::Sub(group) => {
            if group.name.is(name) {
                return Some(group);
            }
            None
        }
    }
}

/// The value of the last simple attribute of the name.
pub fn last_simple<'a>(name: &[u8], items: &'a [Item]) -> Option<&'a Name>
    ensures { option_copied result ≡ last_simple name.now items.now }
{
    let mut found = None;
    for item in items {
        found = simple_value(name, item).or(found);
    }
    found
}

/// The values of the last complex attribute of the name.
pub fn last_complex<'a>(name: &[u8], items: &'a [Item]) -> Option<&'a Names>
    ensures { option_copied result ≡ last_complex name.now items.now }
{
    let mut found = None;
    for item in items {
        found = complex_value(name, item).or(found);
    }
    found
}

/// The last group of the name.
pub fn last_group<'a>(name: &[u8], items: &'a [Item]) -> Option<&'a Node>
    ensures { option_copied result ≡ last_group name.now items.now }
{
    let mut found = None;
    for item in items {
        found = group_in(name, item).or(found);
    }
    found
}

/// The name that a group is given: the first of its args, empty where it has none.
pub fn label_of(group: &Node) -> &[u8]
    ensures { result.now ≡ label_of group.now }
{
    match group.args.as_slice() {
        [] => b"",
        [first, ..] => first.as_bytes(),
    }
}
