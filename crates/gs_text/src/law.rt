//! The laws of a text's pieces, of its faults and of its lines.
ghost use Rattle.std.specs.Prelude.{ℕ, List};
ghost use Rattle.gs_text.specs.Cutting.{IsCutAlone};
ghost use Rattle.gs_text.specs.Faults.{IsDecided};
ghost use Rattle.gs_text.specs.Lines.{IsOneLineOf};
ghost use Rattle.gs_text.specs.declared.kinds.Piece.{Piece};
ghost use Rattle.gs_text.specs.declared.kinds.Style.{Style};

/// Each text of each style is cut into pieces, or has the one fault by which it isn't.
pub fn each_text_is_decided()
    ensures { (style : Style) (bytes : List ℕ) → IsDecided style bytes }
{}

/// The pieces of a text, which the definition finds from its front on, are those and only those of which the rules of the
/// style hold: where they lie, what stands between them, what bytes each is made of, and which line each has.
pub fn each_text_is_cut_alone()
    ensures { (style : Style) (bytes : List ℕ) (pieces : List Piece) → IsCutAlone style bytes pieces }
{}

/// A command of SDC has one first line: no place among its bytes could be given another.
pub fn each_command_has_one_line()
    ensures { (bytes : List ℕ) (before : List Piece) (at : ℕ) → IsOneLineOf bytes before at }
{}
