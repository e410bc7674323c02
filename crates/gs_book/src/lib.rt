//! The book of a run: its entries, and the state that its commits lead to.
//!
//! A [`Book`] is opened for a design, a judge, the sizes at the start and a number of entries that it may have. Trials of moves are settled
//! in it, one after another: each is answered by `settle_of` of `gs_move` (`specs/Settle.antt` there), and adds at most one entry. Beside its
//! entries the book keeps the present sizes, their timing and the journal of its commits. No timing is computed here: a commit installs what
//! its trial found out, and costs what that names.
//!
//! Contracts see a book as `BookOf` (`specs/Book.antt`): the design, the judge, the start, the budget, the entries, and for how many more there is
//! memory. All else is kept by `IsKept`: the sizes are those after the commits, the timing is theirs, the journal is the commits with what each
//! changed (`specs/Journal.antt`), and the entries are legal. The readers promise these, so that callers reason from the entries alone.
//!
//! Whether a move was rejected since the last commit is known without a search and without memory: one number for each place of each
//! instance says which entry rejected it last (`specs/Noted.antt`). A reject writes its number, a commit clears nothing: it only counts as
//! the last commit, behind which earlier rejects no longer count.
//!
//! Where to change what: those numbers in `rejected`, what a book keeps and its readers in `book`, the answers in `settle`.
#![tactic(auto)]

mod book;
mod rejected;
mod settle;

pub use book::Book;
pub use gs_move::Settled;
