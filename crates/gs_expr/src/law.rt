//! The law of expressions.
ghost use Rattle.std.specs.Prelude.{ℕ, ◌≡◌, ◌≢◌, ◌↔◌, List, Ok, Err};
ghost use Rattle.gs_expr.specs.Machine.{outcome};
ghost use Rattle.gs_expr.specs.Refusal.{HasCause};
ghost use Rattle.gs_expr.specs.Truth.{IsTruth};
ghost use Rattle.gs_expr.specs.declared.error.ExprErr.{ExprErr};
ghost use Rattle.gs_grammar.specs.Lawful.{IsLawful};

/// Each text has one table over the names, or one cause other than want of memory, and never both. `outcome`, which a
/// definition may cite where it wants the answer as a value, is that table or that cause, and nothing else.
pub fn each_text_is_decided()
    ensures lawful { (bytes : List ℕ) (names : List (List ℕ)) → IsLawful ExprErr.Mem (IsTruth bytes names) (HasCause bytes names) }
    // All bits of a table are settled, those of no row too, so that a text has one table and no other.
    ensures table { (bytes : List ℕ) (names : List (List ℕ)) (table : ℕ) → (outcome bytes names ≡ Ok table) ↔ IsTruth bytes names table }
    ensures refusal { (bytes : List ℕ) (names : List (List ℕ)) (e : ExprErr) → (outcome bytes names ≡ Err e) ↔ ((e ≢ ExprErr.Mem) × HasCause bytes names e) }
{}
