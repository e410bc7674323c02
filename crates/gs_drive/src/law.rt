//! The law of a reader's texts.
ghost use Rattle.std.specs.Prelude.{ℕ, List};
ghost use Rattle.gs_grammar.specs.Lawful.{IsLawful};
ghost use Rattle.gs_text.specs.Faults.{HasFault};
ghost use Rattle.gs_text.specs.declared.kinds.Style.{Style};
ghost use Rattle.gs_drive.specs.Cause.{Cause, Reads};
ghost use Rattle.gs_drive.specs.Reader.{IsReader};
ghost use Rattle.gs_drive.specs.Tokens.{tokens};
ghost use Rattle.gs_drive.specs.declared.refusal.Refusal.{Refusal};

use crate::machine::Machine;

/// Each text is a whole one that stands for one value, or has one cause other than want of memory, and never both.
pub fn each_text_is_decided<'a, M: Machine<'a>>()
    requires { IsReader M.step M.loose M.begin M.end M.Form M.Text M.Breaks }
    ensures { (style : Style) (bytes : List ℕ) → IsLawful Refusal.Mem (Reads M.Text (tokens M.token style bytes)) (Cause (HasFault style bytes) M.Form M.Text M.Breaks (tokens M.token style bytes)) }
{
    gs_text::each_text_is_decided();
}
