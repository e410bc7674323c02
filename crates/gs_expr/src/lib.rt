//! Truth tables of the expressions that a Liberty library writes in `function`, after the Liberty reference manual, in this
//! project's own profile and with its own precedence.
//!
//! [`truth`] answers the table of an expression over at most six names as one number: bit `i` is the value in the row where
//! name `j` has bit `j` of `i`. Its contract says both ways what is read: it answers `Ok` exactly for the texts that are a
//! whole expression over the names with at most 64 parentheses open at once, with the one table, bit by bit; each refusal
//! comes exactly where its cause stands, at the byte that it names; and each text has a table or a cause. Want of memory is
//! the one answer that may come at any point. [`each_text_is_decided`] is the law of these definitions: one table or one cause, and
//! never both; and `outcome`, the same answer as a value, is that table or that cause.
//!
//! From the loosest to the tightest, the operators are `+` or `|`, then `*` or `&` or nothing between two operands, then `^`,
//! then `!` before an operand, then `'` after one. So `a b ^ c` is `a * (b ^ c)`.
//!
//! - `specs/Cutting.antt`: the tokens of a text, with the places of their first bytes.
//! - `specs/Tree.antt`: the form, as whole trees with their spelling, and how deep parentheses go.
//! - `specs/Parts.antt`: what begins an expression, by the cases of the form; the contract says that this is the same as what
//!   some tokens complete.
//! - `specs/Truth.antt`: the value of a tree in a row, and what a text's table is.
//! - `specs/Refusal.antt`: the cause of each refusal, on the bytes.
//! - `specs/Machine.antt`: the same answer symbol by symbol, which is the code's business alone.
//!
//! Reading takes one pass over the bytes. All 64 rows are reckoned at once, a table being a `u64`. Memory is taken for the
//! open parentheses alone, and nothing recurses, however long a chain of operators is.
//!
//! A new operator is a class of token in `token`, a form in `specs/Tree.antt` with its value in `specs/Truth.antt`, and an
//! arm of the steps in `specs/Machine.antt`, `proofs/Trees.antt` and `Reader`.
#![tactic(auto)]

mod error;
mod evaluate;
mod law;
mod reader;
mod symbol;
mod table;
#[cfg(test)]
mod tests;
mod token;

pub use error::ExprErr;
pub use evaluate::truth;
pub use law::each_text_is_decided;
