//! The law of a text of this format.
#![tactic(auto)]

ghost use Rattle.std.specs.Prelude.{ℕ, List};
ghost use Rattle.gs_design.specs.declared.units.Units.{Units};
ghost use Rattle.gs_grammar.specs.Lawful.{IsLawful};
ghost use Rattle.gs_sdc.specs.Sdc.{HasCause, IsSdc};
ghost use Rattle.gs_sdc.specs.declared.error.SdcErr.{SdcErr};

/// Each text is one of the format and stands for one set of constraints, or has one cause other than want of memory, and never both.
pub fn each_text_is_decided()
    ensures { (units : Units) → (bytes : List ℕ) → IsLawful SdcErr.Mem (IsSdc units bytes) (HasCause units bytes) }
{}
