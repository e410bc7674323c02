//! Names, and where in a list each comes first.
#![tactic(auto)]

ghost use Rattle.std.specs.Prelude.{◌≡◌, IfOk};

use gs_design::Cell;
use gs_names::NameMap;
use gs_sdc::{DriverSpec, PortValue};
use gs_text::Name;
use gs_verilog::RawInst;
use std::alloc::{AllocError, Global};
use std::marker::Model;

/// A copy of a name.
pub fn copy_of(alloc: Global, name: &Name) -> Result<Name, AllocError>
    ensures { IfOk result (λ n. n ≡ name.now) }
{
    Name::copy_of(alloc, name.as_bytes())
}

/// What has a name, or is given for one.
pub trait Named {
    ghost use Rattle.std.specs.Prelude.{◌≡◌, ℕ, List};

    ghost name: { Self → List ℕ };

    /// The name.
    fn name(&self) -> &[u8]
        ensures { result.now ≡ name self.now };
}

impl Named for Name {
    ghost name = { λ n. n };

    fn name(&self) -> &[u8] {
        self.as_bytes()
    }
}

impl Named for Cell {
    ghost name = { λ c. c.name };

    fn name(&self) -> &[u8] {
        self.name.as_bytes()
    }
}

impl Named for PortValue {
    ghost name = { λ v. v.port };

    fn name(&self) -> &[u8] {
        self.port.as_bytes()
    }
}

impl Named for DriverSpec {
    ghost name = { λ d. d.port };

    fn name(&self) -> &[u8] {
        self.port.as_bytes()
    }
}

/// What names a cell.
pub trait OfCell {
    ghost use Rattle.std.specs.Prelude.{◌≡◌, ℕ, List};

    ghost cell: { Self → List ℕ };

    /// The name of the cell.
    fn cell(&self) -> &[u8]
        ensures { result.now ≡ cell self.now };
}

impl OfCell for RawInst {
    ghost cell = { λ i. i.cell };

    fn cell(&self) -> &[u8] {
        self.cell.as_bytes()
    }
}

impl OfCell for DriverSpec {
    ghost cell = { λ d. d.cell };

    fn cell(&self) -> &[u8] {
        self.cell.as_bytes()
    }
}

/// Where in a list each name comes first. Contracts see the list.
#[derive(Drop)]
pub struct Places<'a, T: Named> {
    items: &'a [T],
    map: NameMap<usize>,
}

impl<'a, T: Named> Model for Places<'a, T> {
    ghost use Rattle.std.specs.Prelude.{List};
    ghost use Rattle.gs_survey.specs.Lookup.{FindsFirst};

    ghost Value = { List T };

    ghost view = { λ p. p.items.now };

    ghost invariant = { λ p. FindsFirst T.name p.items.now p.map };
}

impl<'a, T: Named> Places<'a, T> {
    ghost use Rattle.std.specs.Prelude.{◌≡◌, ◌≤◌, IfOk, length};
    ghost use Rattle.std.specs.List.{position_or_len};
    ghost use Rattle.std.specs.Str.{bytes_eq};

    /// The places of the names of these.
    pub fn new(alloc: Global, items: &'a [T]) -> Result<Places<'a, T>, AllocError>
        ensures { IfOk result (λ p. p ≡ items.now) }
    {
        let mut map = NameMap::new(alloc, items.len() / 8 + 1)?;
        for i in (0..items.len()).rev() {
            let name = Name::copy_of(alloc, items[i].name())?;
            let _ = map.insert(name, i)?;
        }
        Ok(Places { items, map })
    }

    /// The first place with this name, or how many there are where none has it.
    pub fn place(&self, alloc: Global, name: &[u8]) -> Result<usize, AllocError>
        ensures place { IfOk result (λ n. n ≡ position_or_len (λ x. bytes_eq name.now (T.name x)) self.now) }
        ensures within { IfOk result (λ n. n ≤ length self.now) }
    {
        let key = Name::copy_of(alloc, name)?;
        match self.map.get(key) {
            Some(place) => Ok(*place),
            None => Ok(self.items.len()),
        }
    }
}
