//! The laws of the texts of sizes.
#![tactic(auto)]

ghost use Rattle.std.specs.Prelude.{ℕ, List};
ghost use Rattle.gs_design.specs.Parts.{parts_of};
ghost use Rattle.gs_design.specs.Sizes.{FitSizes};
ghost use Rattle.gs_design.specs.declared.design.Design.{Design};
ghost use Rattle.gs_design.specs.declared.parts.Parts.{Parts};
ghost use Rattle.gs_grammar.specs.Lawful.{IsLawful};
ghost use Rattle.gs_sizes.specs.Refusal.{HasCause};
ghost use Rattle.gs_sizes.specs.Sizes.{IsSizes};
ghost use Rattle.gs_sizes.specs.Written.{sizes_text};
ghost use Rattle.gs_sizes.specs.declared.error.SizesErr.{SizesErr};

/// The text that is written of sizes stands for these sizes, so it is read back as them. The call does nothing.
pub fn written_sizes_are_read()
    ensures { (d : Design) (s : List ℕ) → FitSizes d s → IsSizes (parts_of d) (sizes_text d s) s }
{}

/// Each text stands for one list of sizes of a design, or has one cause other than want of memory, and never both. The call does
/// nothing.
pub fn each_text_is_decided()
    ensures { (d : Parts) (bytes : List ℕ) → IsLawful SizesErr.Mem (IsSizes d bytes) (HasCause d bytes) }
{}
