//! Why an expression has no truth table.
#![tactic(auto)]

use std::alloc::AllocFailed;

/// Why an expression has no truth table. A place `at` counts the bytes of the text from 0.
#[derive(Debug, PartialEq, Eq, Drop)]
pub enum ExprErr {
    /// There are more than six names.
    TooMany,
    /// The parenthesis at byte `at` is the first that opens 65 deep.
    TooDeep { at: u32 },
    /// The bytes before `at` begin an expression, and with the token at byte `at`, or the end of the text, they don't.
    Syntax { at: u32 },
    /// The name at byte `at` is the first that isn't among the names.
    UnknownPin { at: u32 },
    /// Memory ran out.
    Mem,
}

/// Why a reader can't go on from a symbol.
#[derive(Debug, PartialEq, Eq, Drop)]
pub enum StepErr {
    /// No expression goes on with the symbol.
    Bad,
    /// The parenthesis opens too deep.
    Deep,
    /// Memory ran out.
    Mem,
}

impl<T: Drop> From<AllocFailed<T>> for StepErr {
    ghost use Rattle.std.specs.Prelude.{◌≡◌};
    ghost use Rattle.gs_expr.specs.declared.error.StepErr.{StepErr};

    ghost from_gives = { λ _ error. error ≡ StepErr.Mem };

    fn from(_error: AllocFailed<T>) -> StepErr {
        StepErr::Mem
    }
}
