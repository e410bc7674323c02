//! The reader: the operand that was read last, and what waits for it.
#![tactic(auto)]

ghost use Rattle.std.specs.Prelude.{◌≡◌, [], reverse, IfErr, IfOk, Ok};
ghost use Rattle.gs_expr.specs.Machine.{StepFails, begin, end_at, first, follow, go, left, tables_of};

use crate::error::StepErr;
use crate::symbol::Symbol;
use crate::table::Waits;
use std::alloc::Global;

/// How many parentheses may be open.
const DEPTH: usize = 64;

/// A reader of symbols. Its loop takes one symbol at a time, so nothing recurses however long a chain of operators is.
#[derive(Drop)]
pub struct Reader {
    /// The table of the operand that was read last, where the next symbol follows one.
    pub operand: Option<u64>,
    /// What waits for that operand, or for the next, within the innermost open parenthesis.
    pub held: Waits,
    /// What waits outside of each open parenthesis, the innermost last.
    pub outer: Vec<Waits>,
}

impl Reader {
    /// A reader before the first symbol.
    pub fn new(alloc: Global) -> Reader
        ensures { tables_of result ≡ first }
    {
        Reader {
            operand: None,
            held: Waits::fresh(),
            outer: Vec::new(alloc),
        }
    }

    /// Takes an opening parenthesis where an operand is wanted.
    fn enter(&mut self) -> Result<(), StepErr>
        ensures ok { IfOk result (λ _. begin self.old.held (reverse self.old.outer.items) Symbol.Opens ≡ Ok (tables_of self.new)) }
        ensures err { IfErr result (λ e. StepFails e (begin self.old.held (reverse self.old.outer.items) Symbol.Opens)) }
    {
        if self.outer.len() >= DEPTH {
            return Err(StepErr::Deep);
        }
        self.outer.push(self.held)?;
        self.operand = None;
        self.held = Waits::fresh();
        Ok(())
    }

    /// Takes a closing parenthesis after the table of what it closes.
    fn leave(&mut self, table: u64) -> Result<(), StepErr>
        ensures ok { IfOk result (λ _. left table (reverse self.old.outer.items) ≡ Ok (tables_of self.new)) }
        ensures err { IfErr result (λ e. StepFails e (left table (reverse self.old.outer.items))) }
    {
        match self.outer.pop() {
            None => Err(StepErr::Bad),
            Some(held) => {
                self.operand = Some(table);
                self.held = held;
                Ok(())
            }
        }
    }

    /// Takes a symbol where an operand is wanted.
    fn begin(&mut self, symbol: Symbol) -> Result<(), StepErr>
        ensures ok { IfOk result (λ _. begin self.old.held (reverse self.old.outer.items) symbol ≡ Ok (tables_of self.new)) }
        ensures err { IfErr result (λ e. StepFails e (begin self.old.held (reverse self.old.outer.items) symbol)) }
    {
        match symbol {
            Symbol::Operand(table) => {
                self.operand = Some(table);
                Ok(())
            }
            Symbol::Unknown => {
                self.operand = Some(0);
                Ok(())
            }
            Symbol::Bang => {
                self.operand = None;
                self.held.flips = !self.held.flips;
                Ok(())
            }
            Symbol::Opens => self.enter(),
            Symbol::Tick
            | Symbol::Star
            | Symbol::Caret
            | Symbol::Plus
            | Symbol::Closes
            | Symbol::Other => Err(StepErr::Bad),
        }
    }

    /// Takes a symbol after the table of an operand. Without an operator a product goes on.
    fn follow(&mut self, table: u64, symbol: Symbol) -> Result<(), StepErr>
        ensures ok { IfOk result (λ _. follow table self.old.held (reverse self.old.outer.items) symbol ≡ Ok (tables_of self.new)) }
        ensures err { IfErr result (λ e. StepFails e (follow table self.old.held (reverse self.old.outer.items) symbol)) }
    {
        match symbol {
            Symbol::Operand(_) | Symbol::Unknown | Symbol::Bang | Symbol::Opens => {
                self.held = self.held.after_star(table);
                self.begin(symbol)
            }
            Symbol::Tick => {
                self.operand = Some(table ^ u64::MAX);
                Ok(())
            }
            Symbol::Star => {
                self.operand = None;
                self.held = self.held.after_star(table);
                Ok(())
            }
            Symbol::Caret => {
                self.operand = None;
                self.held = self.held.after_caret(table);
                Ok(())
            }
            Symbol::Plus => {
                self.operand = None;
                self.held = self.held.after_plus(table);
                Ok(())
            }
            Symbol::Closes => self.leave(self.held.sum_with(table)),
            Symbol::Other => Err(StepErr::Bad),
        }
    }

    /// Takes a symbol. After a refusal the reader is of no more use.
    pub fn take(&mut self, symbol: Symbol) -> Result<(), StepErr>
        ensures ok { IfOk result (λ _. go (tables_of self.old) symbol ≡ Ok (tables_of self.new)) }
        ensures err { IfErr result (λ e. StepFails e (go (tables_of self.old) symbol)) }
    {
        match self.operand {
            None => self.begin(symbol),
            Some(table) => self.follow(table, symbol),
        }
    }

    /// The table, where the symbols are a whole expression.
    pub fn finish(&self) -> Option<u64>
        ensures { result ≡ end_at self.now.operand self.now.held (reverse self.now.outer.items) }
    {
        match self.operand {
            None => None,
            Some(table) => {
                if self.outer.is_empty() {
                    return Some(self.held.sum_with(table));
                }
                None
            }
        }
    }
}
