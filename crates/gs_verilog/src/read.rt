//! Reading a netlist.
#![tactic(auto)]

ghost use Rattle.std.specs.Prelude.{◌≡◌, ◌≤◌, ℕ, length, IfErr, IfOk};
ghost use Rattle.gs_grammar.specs.Answers.{IsDecided, IsExact, IsOnly, IsRefused, renamed};
ghost use Rattle.gs_text.specs.Bytes.{max_text};
ghost use Rattle.gs_verilog.specs.Index.{refusal_of};
ghost use Rattle.gs_verilog.specs.Refusal.{HasCause, IsVerilog};

use crate::error::{Rule, VerilogErr, refusal_of};
use crate::netlist::Netlist;
use crate::reader::Reader;
use gs_drive::{Refusal, drive};
use gs_text::Style;
use std::alloc::Global;

/// What is read, with the refusals of a netlist.
fn told(read: Result<Netlist, Refusal<Rule>>) -> Result<Netlist, VerilogErr>
    ensures { result ≡ renamed refusal_of read }
{
    match read {
        Ok(netlist) => Ok(netlist),
        Err(refusal) => Err(refusal_of(refusal)),
    }
}

/// Reads a netlist: one module of structural Verilog (IEEE 1364-2005), in this project's profile of it.
///
/// # Errors
///
/// `OpenComment` first, also where memory ran out; else the first of `BadPiece`, `TwoNames` and `NoEnd`; `Mem` where memory ran out.
pub fn read_netlist(alloc: Global, bytes: &[u8]) -> Result<Netlist, VerilogErr>
    requires { length bytes.now ≤ max_text }
    // What is read is a netlist's text, and stands for this netlist.
    ensures ok { IfOk result (λ n. IsVerilog bytes.now n) }
    // A text is read as the one netlist that it stands for, unless memory runs out.
    ensures only { IsOnly VerilogErr.Mem (IsVerilog bytes.now) result }
    // Each refusal comes only by its cause,
    ensures err { IfErr result (λ e. HasCause bytes.now e) }
    // and where a cause stands, its refusal comes, unless memory runs out.
    ensures exact { IsExact VerilogErr.Mem (HasCause bytes.now) result }
    // A comment without an end is always told: it is never answered as want of memory.
    ensures told { (at : ℕ) → HasCause bytes.now (VerilogErr.OpenComment at) → IsRefused (VerilogErr.OpenComment at) result }
    // Each text is a netlist's, or has a cause other than want of memory.
    ensures decided { IsDecided VerilogErr.Mem (IsVerilog bytes.now) (HasCause bytes.now) }
    // There are no more instances than bytes.
    ensures few { IfOk result (λ n. length n.insts ≤ length bytes.now) }
{
    told(drive::<Reader>(alloc, Style::Verilog, bytes))
}
