//! A key that two sizable cells share exactly where each may take the other's place.
#![tactic(auto)]

ghost use Rattle.std.specs.Prelude.{◌≡◌, ◌++◌, ◌∷◌, IfOk, map};
ghost use Rattle.std.specs.List.{flat_map};
ghost use Rattle.gs_design.specs.Cell.{pin_name};
ghost use Rattle.gs_alternatives.specs.Classes.{class_key, coded};

use gs_design::{Cell, CellKind, CellPin};
use gs_text::Name;
use std::alloc::{AllocError, Global};

// Puts a name last as bytes from which its end can be told.
fn push_coded(name: &[u8], code: &mut Vec<u8>) -> Result<(), AllocError>
    ensures { IfOk result (λ _. code.new.items ≡ code.old.items ++ coded name.now) }
{
    for byte in name {
        code.push(1)?;
        code.push(*byte)?;
    }
    code.push(0)?;
    Ok(())
}

// Puts the names of pins last.
fn push_pins(pins: &[CellPin], code: &mut Vec<u8>) -> Result<(), AllocError>
    ensures { IfOk result (λ _. code.new.items ≡ code.old.items ++ flat_map coded (map pin_name pins.now)) }
{
    for pin in pins {
        push_coded(pin.name.as_bytes(), code)?;
    }
    Ok(())
}

// A cell's footprint and the names of its pins.
fn names_of(alloc: Global, cell: &Cell) -> Result<Name, AllocError>
    ensures { IfOk result (λ n. n ≡ flat_map coded (cell.now.footprint ∷ map pin_name cell.now.pins)) }
{
    let mut code = Vec::new(alloc);
    push_coded(cell.footprint.as_bytes(), &mut code)?;
    push_pins(cell.pins.as_slice(), &mut code)?;
    let names = Name::copy_of(alloc, code.as_slice())?;
    Ok(names)
}

/// The key of a sizable cell.
pub fn class_key(alloc: Global, cell: &Cell) -> Result<Option<(u64, Name)>, AllocError>
    ensures { IfOk result (λ k. k ≡ class_key cell.now) }
{
    if cell.marked {
        return Ok(None);
    }
    match cell.kind {
        CellKind::Gate { truth } => {
            let names = names_of(alloc, cell)?;
            Ok(Some((truth, names)))
        }
        CellKind::Flop => Ok(None),
    }
}
