//! What the readers of texts share: fronts of a form, the first bad token, the laws of a machine that reads a list of tokens from
//! left to right, items that are judged one after another, and the clauses of a call whose only free answer is want of memory.
//!
//! This crate holds no code. Its `specs/` say what a reader's answers mean, for any kind of token, item and error; its `proofs/`
//! hold the laws, stated once for all of them. **The laws are meant to be imported by the proofs of the readers**: that is what
//! the crate is for.
//!
//! - `specs/Fronts.antt`: a front is what some list completes to a whole; the three places at which a text is refused.
//! - `specs/Machine.antt`: `run`, which takes a list by steps and stops at the first fault, with the rest of the list.
//! - `specs/Judged.antt`: items that are judged one after another, each by what stands before it: all good, or a first fault.
//! - `specs/Answers.antt`: what a call answers of what is said of its input (`IsOnly`, `IsExact`, `IsRefused`, `IsDecided`), and the same
//!   where its errors get other names (`renamed`).
//! - `proofs/Runs.antt`: the laws of `run`: a run of a list in two parts, a front of what is taken is taken, where a
//!   fault stands, and the three steps of a reader's loop.
//! - `proofs/Refusals.antt`: from a machine that takes exactly the whole texts, and whose every state can be finished,
//!   to the exact place of each refusal.
//! - `proofs/Exclusive.antt`: a front of a front is a front; the places of refusals exclude each other, and whole texts.
//! - `proofs/Judged.antt`: an item without a fault is passed, one with a fault ends the search, and what is found is the one
//!   first fault.
//! - `proofs/Answers.antt`: the clauses of a call, from one equation of what it answers and the laws of what is said; and the clauses
//!   of a call that gives the errors of another one its own names (`SameCauses`).
//!
//! A reader of pieces stands on `gs_drive`, which uses all but `Judged`. A reader of lines or commands judges its items by `Judged`,
//! and takes its clauses from `Answers`.
#![tactic(auto)]
