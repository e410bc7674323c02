//! Liberty groups and their items.
#![tactic(auto)]

ghost use Rattle.std.specs.Prelude.{◌≡◌, ◌≤◌};
ghost use Rattle.gs_text.specs.Bytes.{max_text};
ghost use Rattle.gs_libtree.specs.Bytes.{bytes_of};

use gs_text::{Name, Names};
use sqlite_items::Items;
use std::marker::Model;

/// The one group of a Liberty text, with all that is in it. Contracts see its root.
///
/// All names, args and values in it, those of inner groups among them, have at most 2^28 bytes together.
#[derive(Debug, Drop)]
pub struct Group {
    root: Node,
}

impl Model for Group {
    ghost use Rattle.std.specs.Prelude.{◌≤◌};
    ghost use Rattle.gs_text.specs.Bytes.{max_text};
    ghost use Rattle.gs_libtree.specs.Bytes.{bytes_of};
    ghost use Rattle.gs_libtree.specs.declared.tree.Node.{Node};

    ghost Value = { Node };

    ghost view = { λ g. g.root };

    ghost invariant = { λ g. bytes_of g.root ≤ max_text };

    ghost use Rattle.gs_libtree.specs.contracts.tree.Item as item;
    ghost use Rattle.std.specs.Coded.{codes};

    ghost coded = { Prim.hlevel (codes, item.the_row.coded) };
}

impl Group {
    /// The group of a root. It takes no memory.
    pub(crate) fn of(root: Node) -> Group
        requires { bytes_of root ≤ max_text }
        ensures { result ≡ root }
    {
        Group { root }
    }

    /// The root.
    pub fn root(&self) -> &Node
        ensures value { result.now ≡ self.now }
        // Its names, args and values have at most 2^28 bytes together.
        ensures kept { bytes_of result.now ≤ max_text }
    {
        &self.root
    }
}

/// A group as it stands in a tree, `name ( args ) { items }`. It owns its names, and its items stand in the text's order.
#[cycle(group)]
#[derive(Debug, Drop)]
pub struct Node {
    pub name: Name,
    /// The words and strings between the parentheses, strings without their quotes.
    pub args: Names,
    pub items: Items<Item>,
}

/// What stands in a group.
#[cycle(group)]
#[derive(Debug, Drop)]
pub enum Item {
    /// A simple attribute, `name : value ;`. Of several words or strings the first is the value.
    Simple { name: Name, value: Name },
    /// A complex attribute, `name ( values ) ;`.
    Complex { name: Name, values: Names },
    /// A group in the group.
    Sub(Node),
}
