//! The law of a text of this format.
ghost use Rattle.std.specs.Prelude.{ℕ, List};
ghost use Rattle.gs_grammar.specs.Lawful.{IsLawful};
ghost use Rattle.gs_libtree.specs.Refusal.{HasCause, IsLiberty};
ghost use Rattle.gs_libtree.specs.declared.error.LibTextErr.{LibTextErr};

use crate::reader::Reader;

/// Each text is one of the format and stands for one value, or has one cause other than want of memory, and never both.
pub fn each_text_is_decided()
    ensures { (bytes : List ℕ) → IsLawful LibTextErr.Mem (IsLiberty bytes) (HasCause bytes) }
{
    gs_drive::each_text_is_decided::<Reader>();
}
