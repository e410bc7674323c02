//! The input pins of the instances of a design, and the nets that they are on.
#![tactic(auto)]

ghost use Rattle.std.specs.Prelude.{◌≡◌, ◌++◌, ◌≤◌, ◌<◌, ℕ, IfOk, OnOk, flat_map, length, map};
ghost use Rattle.std.specs.List.{range_with_len};
ghost use Rattle.gs_design.specs.Ends.{input_pins, pins_of_inst, pins_on};
ghost use Rattle.gs_design.specs.Insts.{inst_at};
ghost use Rattle.gs_link.specs.Columns.{AreInside, inputs_at};

use gs_design::{InstId, Insts, NetId, Sink};
use gs_list::{Grouped, Rows};
use std::alloc::{AllocError, Global};

// Puts last the input pins of an instance.
fn push_pins(sinks: &mut Vec<Sink>, insts: &Insts, inst: u32) -> Result<(), AllocError>
    requires inst { inst < length insts.now }
    requires few { length (inst_at insts.now inst).inputs ≤ 6 }
    ensures { OnOk result (sinks.new.items ≡ sinks.old.items ++ pins_of_inst insts.now inst) }
{
    for pin in 0..insts.inputs(InstId(inst)).len() as u8 {
        sinks.push(Sink {
            inst: InstId(inst),
            pin,
        })?;
    }
    Ok(())
}

// All input pins, by instance and pin.
fn find_pins(alloc: Global, insts: &Insts) -> Result<Vec<Sink>, AllocError>
    requires many { length insts.now < 2097152 }
    requires few { (g : ℕ) → g < length insts.now → length (inst_at insts.now g).inputs ≤ 6 }
    ensures { IfOk result (λ v. v.items ≡ input_pins insts.now) }
{
    let mut sinks = Vec::new(alloc);
    for inst in 0..insts.len() as u32 {
        push_pins(&mut sinks, insts, inst)?;
    }
    Ok(sinks)
}

// Puts last the nets at the inputs of an instance.
fn push_keys(keys: &mut Vec<u32>, nets: &[NetId]) -> Result<(), AllocError>
    ensures { OnOk result (keys.new.items ≡ keys.old.items ++ nets.now) }
{
    for net in nets {
        keys.push(net.number())?;
    }
    Ok(())
}

// The nets at all input pins, by instance and pin.
fn find_keys(alloc: Global, insts: &Insts) -> Result<Vec<u32>, AllocError>
    requires { length insts.now < 2097152 }
    ensures { IfOk result (λ v. v.items ≡ flat_map (inputs_at insts.now) (range_with_len 0 (length insts.now))) }
{
    let mut keys = Vec::new(alloc);
    for inst in 0..insts.len() as u32 {
        push_keys(&mut keys, insts.inputs(InstId(inst)))?;
    }
    Ok(keys)
}

/// The input pins on each net.
pub fn find_sinks(alloc: Global, insts: &Insts, nets: u32) -> Result<Grouped<Sink>, AllocError>
    requires many { length insts.now < 2097152 }
    requires few { (g : ℕ) → g < length insts.now → length (inst_at insts.now g).inputs ≤ 6 }
    requires inside { AreInside nets insts.now }
    ensures { IfOk result (λ r. r ≡ map (pins_on insts.now) (range_with_len 0 nets)) }
{
    let sinks = find_pins(alloc, insts)?;
    let keys = find_keys(alloc, insts)?;
    let grouped = Grouped::by_key(alloc, sinks.as_slice(), keys.as_slice(), nets)?;
    Ok(grouped)
}
