//! What a reader is to the driver: a machine that takes the tokens of a text one by one.
#![tactic(auto)]

ghost use Rattle.std.specs.Prelude.{◌≡◌, ◌≤◌, ℕ, List, Option, Result, Ok, IfErr, IfOk};
ghost use Rattle.gs_text.specs.Bytes.{max_text};
ghost use Rattle.gs_text.specs.declared.kinds.Kind.{Kind};
ghost use Rattle.gs_drive.specs.Read.{HasRead};
ghost use Rattle.gs_drive.specs.Machine.{StepFails};
ghost use Rattle.gs_drive.specs.declared.machine.Fault.{Fault};

use gs_text::Kind;
use std::alloc::{AllocError, AllocFailed, Global};

/// Why a token isn't taken.
#[derive(Debug, PartialEq, Eq, Drop)]
pub enum Fault<R> {
    /// No text of the form goes on with the token.
    Bad,
    /// The token only breaks this rule.
    Broken(R),
}

/// Why a machine can't go on from a token.
#[derive(Debug, PartialEq, Eq, Drop)]
pub enum StepErr<R> {
    /// The token isn't taken.
    Refused(Fault<R>),
    /// Memory ran out.
    Full,
}

impl<T: Drop, R> From<AllocFailed<T>> for StepErr<R> {
    ghost use Rattle.std.specs.Prelude.{◌≡◌};
    ghost use Rattle.gs_drive.specs.declared.machine.StepErr.{StepErr};

    ghost from_gives = { λ _ error. error ≡ StepErr.Full };

    fn from(_error: AllocFailed<T>) -> StepErr<R> {
        StepErr::Full
    }
}

impl<R> From<AllocError> for StepErr<R> {
    ghost use Rattle.std.specs.Prelude.{◌≡◌};
    ghost use Rattle.gs_drive.specs.declared.machine.StepErr.{StepErr};

    ghost from_gives = { λ _ error. error ≡ StepErr.Full };

    fn from(_error: AllocError) -> StepErr<R> {
        StepErr::Full
    }
}

/// A reader's machine. What its texts are, and what it does of them, is said by ghost members alone.
pub trait Machine<'a> {
    /// What a whole text is read as.
    type Out;
    /// The rules that a text of the form may break.
    type Rule;

    // what the machine knows of the tokens so far
    ghost State: { Type 0 };

    ghost Token: { Type 0 };
    // the token of a piece's kind, text and line
    ghost token: { Kind → List ℕ → ℕ → Token };

    ghost begin: { State };
    // the state after a token, by the form and the rules
    ghost step: { State → Token → Result State (Fault Self.Rule) };
    // what the tokens so far stand for, where the text may end with them
    ghost end: { State → Option Self.Out };
    // the state after a token, by the form alone
    ghost loose: { State → Token → Result State (Fault Self.Rule) };
    // the lists of tokens of the form
    ghost Form: { List Token → Type 0 };
    // what a whole list of tokens stands for
    ghost Text: { List Token → Self.Out → Type 0 };
    // the last token of the list breaks the rule
    ghost Breaks: { List Token → Self.Rule → Type 0 };
    // the state that a machine stands for
    ghost state: { Self → State };
    // what else a machine keeps
    ghost Keeps: { Self → Type 0 };

    /// A machine before the first token of a text of `len` bytes.
    fn start(alloc: Global, len: usize) -> Result<Self, AllocError>
        requires { len ≤ max_text }
        ensures keeps { IfOk result Keeps }
        ensures fresh { IfOk result (λ m. state m ≡ begin) };

    /// Takes a token. After an error the machine isn't used again.
    fn take(
        &mut self,
        alloc: Global,
        kind: Kind,
        text: &'a [u8],
        line: u32,
    ) -> Result<(), StepErr<Self::Rule>>
        requires keeps { Keeps self.old }
        requires read { HasRead token step begin (state self.old) }
        ensures keeps { IfOk result (λ _. Keeps self.new) }
        ensures ok { IfOk result (λ _. step (state self.old) (token kind text.now line) ≡ Ok (state self.new)) }
        ensures err { IfErr result (λ e. StepFails e (step (state self.old) (token kind text.now line))) };

    /// What the text is read as, where it may end with the tokens so far.
    fn finish(self, alloc: Global) -> Result<Option<Self::Out>, AllocError>
        requires keeps { Keeps self }
        requires read { HasRead token step begin (state self) }
        ensures { IfOk result (λ found. found ≡ end (state self)) };
}
