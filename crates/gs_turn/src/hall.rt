//! The lock, its seats and the turn.
ghost use Rattle.std.specs.Prelude.{◌≡◌, ℕ, ◌≤◌};

use crate::told::Told;
use crate::view::{Claim, Key, Release, SeatView, TurnRule};
use atomic_table::{Seat as TableSeat, Table};
use std::alloc::Global;
use std::snapshot::Snapshot;
use std::sync::Wait;
use std::thread;

pub(crate) type SeatToken<B> = TableSeat<Option<B>, SeatView<<B as Told>::Tag, <B as Told>::Row>>;

/// A lock over one book. Whoever has a seat may take the book in a turn of its own, and gives it back with a list that goes on.
#[derive(Drop)]
pub struct Hall<B: Told> {
    pub(crate) table: Table<Option<B>, SeatView<B::Tag, B::Row>, Key<B>, TurnRule<B>, Global>,
    pub(crate) made: u32,
    ghost sized: { (table.shared.table_id.words ≡ 1) × (table.shared.table_id.slots ≡ 1) },
    ghost counted: { made ≡ table.shared.key.1 },
    ghost some: { 1 ≤ made },
}

/// The right to ask for the turn of one hall. It has no bytes, and may cross to another thread.
#[derive(Drop)]
pub struct Seat<B: Told> {
    pub(crate) seat: SeatToken<B>,
}

/// The duty to give the book back, of the seat that took it. It has no bytes and no `Drop`: only [`Hall::give`] takes it.
pub struct Turn<B: Told> {
    seat: Snapshot<Seat<B>>,
}

impl<B: Told> Hall<B> {
    ghost use Rattle.std.specs.Prelude.{List, IfSome, IfNone};
    ghost use mathlib.Core.List.{IsPrefix};
    ghost use Rattle.gs_turn.specs.Seats.{IsSeatOf, IsFree, HasTurn, hall_tag, seat_seen, seat_number, turn_of};

    /// Takes the book in a turn of the seat's own. It waits until no other seat has the turn.
    ///
    /// It takes no memory, and nothing is promised of when the turn comes, or of the order of those who wait.
    pub fn take<R: Wait>(&self, rt: &R, seat: &mut Seat<B>) -> (Turn<B>, B)
        requires seat { IsSeatOf B.tag self.now seat.old }
        requires free { IsFree seat.old }
        ensures tag { B.tag result.1 ≡ hall_tag B.tag self.now }
        ensures goes_on { IsPrefix (seat_seen seat.old) (B.list result.1) }
        ensures turn { HasTurn seat.new (B.list result.1) }
        ensures own { turn_of result.0 ≡ seat.new }
        ensures seat { IsSeatOf B.tag self.now seat.new }
        ensures seen { seat_seen seat.new ≡ seat_seen seat.old }
        ensures number { seat_number seat.new ≡ seat_number seat.old }
    {
        for _ in rt.forever() {
            match self.try_take(seat) {
                Some(taken) => return taken,
                None => thread::yield_now(),
            }
        }
        unreachable!()
    }

    // Takes the book where no other seat has the turn.
    fn try_take(&self, seat: &mut Seat<B>) -> Option<(Turn<B>, B)>
        requires seat { IsSeatOf B.tag self.now seat.old }
        requires free { IsFree seat.old }
        ensures tag { IfSome result (λ t. B.tag t.1 ≡ hall_tag B.tag self.now) }
        ensures goes_on { IfSome result (λ t. IsPrefix (seat_seen seat.old) (B.list t.1)) }
        ensures turn { IfSome result (λ t. HasTurn seat.new (B.list t.1)) }
        ensures own { IfSome result (λ t. turn_of t.0 ≡ seat.new) }
        ensures seat { IfSome result (λ _. IsSeatOf B.tag self.now seat.new) }
        ensures seen { IfSome result (λ _. seat_seen seat.new ≡ seat_seen seat.old) }
        ensures number { IfSome result (λ _. seat_number seat.new ≡ seat_number seat.old) }
        ensures none { IfNone result (seat.new ≡ seat.old) }
    {
        let shared = &self.table.shared;
        let found = shared.compare_exchange::<Claim<B>>(&mut seat.seat, 0, 0, 1);
        if found != 0 {
            return None;
        }
        let book = shared.exchange(&mut seat.seat, 0, None);
        let Some(book) = book else { unreachable!() };
        let turn = Turn {
            seat: Snapshot::of(seat),
        };
        Some((turn, book))
    }

    /// Ends the seat's turn: the book stands behind the lock again, and the seat has seen its list.
    ///
    /// It takes no memory and doesn't wait.
    pub fn give(&self, turn: Turn<B>, book: B, seat: &mut Seat<B>)
        requires seat { IsSeatOf B.tag self.now seat.old }
        requires own { turn_of turn ≡ seat.old }
        requires tag { B.tag book ≡ hall_tag B.tag self.now }
        requires goes_on { (taken : List B.Row) × HasTurn seat.old taken × IsPrefix taken (B.list book) }
        ensures seen { seat_seen seat.new ≡ B.list book }
        ensures free { IsFree seat.new }
        ensures seat { IsSeatOf B.tag self.now seat.new }
        ensures number { seat_number seat.new ≡ seat_number seat.old }
    {
        let Turn { seat: _ } = turn;
        let was = self.table.shared.exchange(&mut seat.seat, 0, Some(book));
        let None = was else { unreachable!() };
        self.table.shared.swap::<Release<B>>(&mut seat.seat, 0, 0);
    }
}
