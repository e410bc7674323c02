//! A list that owns its elements.
#![tactic(auto)]

ghost use Rattle.std.specs.Prelude.{◌≡◌, ◌==◌, ◌<◌, [], ◌∷◌, ◌++◌, OnOk, OnErr, IfErr, length, slice_index_or};

use std::alloc::{AllocFailed, Global};
use std::marker::Model;

/// A list that owns its elements. Contracts see the list.
#[derive(Debug, Drop)]
pub struct Rows<T> {
    items: Vec<T>,
}

impl<T> Model for Rows<T> {
    ghost use Rattle.std.specs.Prelude.{List};

    ghost Value = { List T };

    ghost view = { λ r. r.items.items };
}

impl<T> Rows<T> {
    /// The list without an element. It takes no memory.
    pub fn empty(alloc: Global) -> Rows<T>
        ensures { result ≡ [] }
    {
        Rows {
            items: Vec::new(alloc),
        }
    }

    /// These elements. It takes no memory.
    pub fn from_vec(items: Vec<T>) -> Rows<T>
        ensures { result ≡ items.items }
    {
        Rows { items }
    }

    /// The elements as a `Vec`. It takes no memory.
    pub fn into_vec(self) -> Vec<T>
        ensures { result.items ≡ self }
    {
        let Rows { items } = self;
        items
    }

    /// The elements, in order.
    pub fn as_slice(&self) -> &[T]
        ensures { result.now ≡ self.now }
    {
        self.items.as_slice()
    }

    /// How many elements there are.
    pub fn len(&self) -> usize
        ensures { result ≡ length self.now }
    {
        self.items.len()
    }

    /// Whether there is no element.
    pub fn is_empty(&self) -> bool
        ensures { result ≡ (length self.now == 0) }
    {
        self.items.is_empty()
    }

    /// The element at a place, counted from 0.
    pub fn at(&self, place: usize) -> &T
        requires { place < length self.now }
        ensures { (d : T) → result.now ≡ slice_index_or self.now place d }
    {
        &self.items[place]
    }
}

impl<T: Drop> Rows<T> {
    /// Puts an element last. Without memory for it the list stays, and the element comes back in the error.
    pub fn push(&mut self, item: T) -> Result<(), AllocFailed<T>>
        ensures pushed { OnOk result (self.new ≡ self.old ++ item ∷ []) }
        ensures unchanged { OnErr result (self.new ≡ self.old) }
        ensures returned { IfErr result (λ e. e.value ≡ item) }
    {
        self.items.push(item)
    }
}

#[cfg(test)]
mod tests {
    use super::*;
    use std::test::Fail;

    #[test]
    fn a_list_keeps_its_order(rt: HostRuntime) -> Result<(), Fail> {
        let mut rows: Rows<u32> = Rows::empty(rt.alloc());
        assert!(rt; rows.is_empty());
        rows.push(5)?;
        rows.push(3)?;
        assert_eq!(rt; rows.len(), 2);
        assert_eq!(rt; *rows.at(0), 5);
        assert_eq!(rt; rows.as_slice()[1], 3);
        assert_eq!(rt; Rows::from_vec(rows.into_vec()).len(), 2);
        Ok(())
    }
}
