//! What a seat knows in the proofs, the rule of the lock, and its kinds of step. No value of these types is made.
ghost use Rattle.gs_turn.specs.Rule.{Kept, opened, claimed, released, with_first, without_first, both_of, spent};

use crate::told::Told;
use atomic_table::{Join, Play, Split, TableRule};
use std::collections::LinkedList;
use std::marker::PhantomData;
use std::snapshot::Snapshot;

/// What a seat knows.
pub struct SeatView<T, R> {
    /// The tag of the lock's book; none in a spent view alone.
    pub tag: Option<T>,
    /// How many seats the lock has.
    pub count: u32,
    /// The numbers of this seat: one once the lock is open, none in a spent view.
    pub own: LinkedList<u32>,
    /// The list that the seat has seen.
    pub seen: LinkedList<R>,
    /// The lists that the seats joined into this one had seen.
    pub olds: LinkedList<LinkedList<R>>,
    /// While the seat has the turn: the list of the book as it went out.
    pub turn: Option<LinkedList<R>>,
}

/// What the lock is opened with: its book, as it was then, and the count of its seats.
pub type Key<B> = (Snapshot<B>, u32);

/// The rule that each step keeps.
pub struct TurnRule<B> {
    book: PhantomData<B>,
}

impl<B: Told> TableRule<Option<B>, SeatView<B::Tag, B::Row>, Key<B>> for TurnRule<B> {
    ghost holds = { λ key. Kept B.tag B.list (B.tag key.0.value) key.1 };

    ghost first = { λ key. opened B.tag B.list key.0.value key.1 };
}

/// The step that takes the turn where it is free.
pub struct Claim<B> {
    book: PhantomData<B>,
}

impl<B: Told> Play<Option<B>, SeatView<B::Tag, B::Row>> for Claim<B> {
    ghost then = { claimed B.tag B.list };
}

/// The step that ends the turn.
pub struct Release<B> {
    book: PhantomData<B>,
}

impl<B: Told> Play<Option<B>, SeatView<B::Tag, B::Row>> for Release<B> {
    ghost then = { released B.tag B.list };
}

/// How the first number of a seat becomes a seat of its own.
pub struct SplitOff;

impl<T, R> Split<SeatView<T, R>> for SplitOff {
    ghost left = { without_first };

    ghost right = { with_first };
}

/// How one seat is joined into another.
pub struct JoinInto;

impl<T, R> Join<SeatView<T, R>> for JoinInto {
    ghost both = { both_of };

    ghost spent = { spent };
}
