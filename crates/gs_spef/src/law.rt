//! The law of a text of this format.
#![tactic(auto)]

ghost use Rattle.std.specs.Prelude.{ℕ, List};
ghost use Rattle.gs_grammar.specs.Lawful.{IsLawful};
ghost use Rattle.gs_spef.specs.Refusal.{HasCause};
ghost use Rattle.gs_spef.specs.Spef.{IsSpef};
ghost use Rattle.gs_spef.specs.declared.error.SpefErr.{SpefErr};

/// Each text is one of the format and stands for one list of wires, or has one cause other than want of memory, and never both.
pub fn each_text_is_decided()
    ensures { (bytes : List ℕ) → IsLawful SpefErr.Mem (IsSpef bytes) (HasCause bytes) }
{}
