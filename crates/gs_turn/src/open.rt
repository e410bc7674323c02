//! How a hall is opened: the book goes into the lock, and the first seat is cut into a seat a number.
ghost use Rattle.std.specs.Prelude.{◌≡◌, ℕ, ◌≤◌, List, [], ◌∷◌, Option, Some, All, IfOk, IfErr, map, vec_len, vec_capacity};
ghost use Rattle.std.specs.List.{range_with_len};
ghost use Rattle.gs_turn.specs.Rule.{opened};
ghost use Rattle.gs_turn.specs.Seats.{IsSeatOf, IsFree, hall_opening, hall_tag, hall_made, seat_seen, seat_number};

use crate::Mem;
use crate::hall::{Hall, Seat, SeatToken};
use crate::told::Told;
use crate::view::SplitOff;
use atomic_table::{Refused, Table};
use std::alloc::Global;
use std::snapshot::Snapshot;

impl<B: Told> Hall<B> {
    /// Puts the book behind a new lock, with `seats` seats, numbered from 0, that have seen its list.
    ///
    /// Where memory is wanted, the book comes back. A hall has at most 65 seats.
    pub fn open(alloc: Global, book: B, seats: u32) -> Result<(Hall<B>, Vec<Seat<B>>), (B, Mem)>
        requires { (1 ≤ seats) × (seats ≤ 65) }
        ensures tag { IfOk result (λ r. hall_tag B.tag r.0 ≡ B.tag book) }
        ensures made { IfOk result (λ r. hall_made r.0 ≡ seats) }
        ensures seats { IfOk result (λ r. All (λ s. IsSeatOf B.tag r.0 s × IsFree s) r.1.items) }
        ensures seen { IfOk result (λ r. All (λ s. seat_seen s ≡ B.list book) r.1.items) }
        ensures count { IfOk result (λ r. vec_len r.1 ≡ seats) }
        ensures numbers { IfOk result (λ r. map seat_number r.1.items ≡ range_with_len 0 seats) }
        ensures back { IfErr result (λ e. e.0 ≡ book) }
    {
        let Ok(slots) = Vec::with_capacity(alloc, 1) else {
            return Err((book, Mem));
        };
        let Ok(room) = Vec::with_capacity(alloc, seats as usize) else {
            return Err((book, Mem));
        };
        let (hall, first) = match Hall::lock(alloc, book, seats, slots) {
            Ok(locked) => locked,
            Err(book) => return Err((book, Mem)),
        };
        let seats = hall.seat_all(first, room);
        Ok((hall, seats))
    }

    // The lock with its book, and the first seat, which has all numbers.
    fn lock(
        alloc: Global,
        book: B,
        seats: u32,
        mut slots: Vec<Option<B>>,
    ) -> Result<(Hall<B>, SeatToken<B>), B>
        requires seats { 1 ≤ seats }
        requires room { (slots.items ≡ []) × (1 ≤ vec_capacity slots) }
        ensures opening { IfOk result (λ r. hall_opening r.0 ≡ book) }
        ensures made { IfOk result (λ r. hall_made r.0 ≡ seats) }
        ensures first { IfOk result (λ r. (r.1.table_id ≡ r.0.table.shared.table_id) × (r.1.me ≡ (opened B.tag B.list book seats, []))) }
        ensures back { IfErr result (λ b. b ≡ book) }
    {
        let key = (Snapshot::of(&book), seats);
        slots.push_reserved(Some(book));
        match Table::new(alloc, &[0], slots, &key) {
            Ok((table, first)) => Ok((Hall { table, made: seats }, first)),
            Err(Refused { slots }) => Err(only(slots)),
        }
    }

    // Cuts the first seat into a seat a number, in order.
    fn seat_all(&self, mut first: SeatToken<B>, mut seats: Vec<Seat<B>>) -> Vec<Seat<B>>
        requires table { first.table_id ≡ self.now.table.shared.table_id }
        requires first { first.me ≡ (opened B.tag B.list (hall_opening self.now) self.now.made, []) }
        requires room { (seats.items ≡ []) × (vec_len seats ≡ 0) × (self.now.made ≤ vec_capacity seats) }
        ensures seats { All (λ s. IsSeatOf B.tag self.now s × IsFree s) result.items }
        ensures seen { All (λ s. seat_seen s ≡ B.list (hall_opening self.now)) result.items }
        ensures count { vec_len result ≡ self.now.made }
        ensures numbers { map seat_number result.items ≡ range_with_len 0 self.now.made }
    {
        for _ in 1..self.made {
            let seat = self.table.shared.split_seat::<SplitOff>(&mut first);
            seats.push_reserved(Seat { seat });
        }
        seats.push_reserved(Seat { seat: first });
        seats
    }
}

// The book of the one slot.
fn only<B: Told>(mut slots: Vec<Option<B>>) -> B
    requires { (book : B) × (slots.items ≡ Some book ∷ []) }
    ensures { slots.items ≡ Some result ∷ [] }
{
    let Some(Some(book)) = slots.pop() else {
        unreachable!()
    };
    book
}
