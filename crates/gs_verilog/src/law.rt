//! The laws of a text of this format.
ghost use Rattle.std.specs.Prelude.{ℕ, List};
ghost use Rattle.gs_grammar.specs.Lawful.{IsLawful};
ghost use Rattle.gs_verilog.specs.Circuit.{Circuit, IsNetlist};
ghost use Rattle.gs_verilog.specs.Refusal.{HasCause, IsVerilog};
ghost use Rattle.gs_verilog.specs.declared.error.VerilogErr.{VerilogErr};

use crate::reader::Reader;

/// Each text is one of the format and stands for one value, or has one cause other than want of memory, and never both.
pub fn each_text_is_decided()
    ensures { (bytes : List ℕ) → IsLawful VerilogErr.Mem (IsVerilog bytes) (HasCause bytes) }
{
    gs_drive::each_text_is_decided::<Reader<'_>>();
}

/// The circuit that a text of the format stands for keeps what the type of a netlist keeps. So this is known of it without a call
/// that reads the text.
pub fn each_netlist_is_kept()
    ensures { (bytes : List ℕ) (c : Circuit) → IsVerilog bytes c → IsNetlist c }
{
    gs_text::each_text_is_cut_alone();
}
