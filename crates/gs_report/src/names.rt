//! The names of limits.
#![tactic(auto)]

ghost use Rattle.std.specs.Prelude.{◌≡◌, ◌<◌, ◌++◌, OnOk, length};
ghost use Rattle.gs_design.specs.Ends.{alt_cell, end_at};
ghost use Rattle.gs_design.specs.Insts.{inst_at};
ghost use Rattle.gs_design.specs.Limits.{IsLimitOf};
ghost use Rattle.gs_report.specs.Lines.{spaced};
ghost use Rattle.gs_report.specs.Report.{end_name, limit_name, limit_word, pin_word};

use crate::words::add_word;
use gs_design::{Design, EndPlace, InstId, Limit};
use std::alloc::AllocError;

/// The word for a kind of limit.
pub fn limit_word(limit: &Limit) -> &'static str
    ensures { result.now ≡ limit_word limit.now }
{
    match limit {
        Limit::Setup(_) => "setup",
        Limit::Slew(_) => "slew",
        Limit::Load(_) => "load",
        Limit::Area => "area",
    }
}

// Puts a space and the name of a flip-flop's input pin last.
fn add_pin(text: &mut Vec<u8>, design: &Design, inst: InstId, pin: u8) -> Result<(), AllocError>
    requires inst { inst < length design.now.insts }
    requires pin { pin < length (inst_at design.now.insts inst).inputs }
    ensures { OnOk result (text.new.items ≡ text.old.items ++ spaced (pin_word design.now inst pin)) }
{
    let cell = design.cell(design.insts.cell(inst, 0));
    add_word(text, design.insts.name(inst).as_bytes())?;
    text.push(b'/')?;
    text.extend_from_slice(cell.pins.at(pin as usize).name.as_bytes())?;
    Ok(())
}

// Puts a space and the name of an endpoint last.
fn add_end(text: &mut Vec<u8>, design: &Design, number: u32) -> Result<(), AllocError>
    requires { number < length design.now.ends }
    ensures { OnOk result (text.new.items ≡ text.old.items ++ spaced (end_name design.now (end_at design.now.ends number))) }
{
    let end = design.ends.at(number as usize);
    match end.place {
        EndPlace::Output => add_word(text, design.nets.name(end.net).as_bytes()),
        EndPlace::Pin { inst, pin } => add_pin(text, design, inst, pin),
    }
}

/// Puts a space and the name of what is limited last.
pub fn add_limit(text: &mut Vec<u8>, design: &Design, limit: &Limit) -> Result<(), AllocError>
    requires { IsLimitOf design.now limit.now }
    ensures { OnOk result (text.new.items ≡ text.old.items ++ spaced (limit_name design.now limit.now)) }
{
    match *limit {
        Limit::Setup(end) => add_end(text, design, end),
        Limit::Slew(net) => add_word(text, design.nets.name(net).as_bytes()),
        Limit::Load(net) => add_word(text, design.nets.name(net).as_bytes()),
        Limit::Area => unreachable!(),
    }
}
