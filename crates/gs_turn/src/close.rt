//! How a hall is closed: its seats are joined into one, which has all numbers, so that no seat is left that could have the turn.
ghost use Rattle.std.specs.Prelude.{◌≡◌, ℕ, ◌≤◌, ◌<◌, ◌↔◌, List, [], Option, None, All, IfOk, IfErr, IsErr, length, vec_len};
ghost use mathlib.Core.List.{IsPrefix};
ghost use Rattle.gs_turn.specs.Rule.{GoesOn};
ghost use Rattle.gs_turn.specs.Seats.{IsSeatOf, IsFree, hall_tag, hall_made, seat_seen};

use crate::hall::{Hall, Seat, SeatToken};
use crate::told::Told;
use crate::view::JoinInto;

/// Fewer seats were given to [`Hall::close`] than were made. Hall and seats are handed back.
#[derive(Drop)]
pub struct StillOut<B: Told> {
    pub hall: Hall<B>,
    pub seats: Vec<Seat<B>>,
    /// How many seats were given.
    pub given: u32,
    /// How many seats were made.
    pub made: u32,
}

impl<B: Told> Hall<B> {
    /// Gives the book out for good, once all seats have come back. It takes no memory.
    pub fn close(self, seats: Vec<Seat<B>>) -> Result<B, StillOut<B>>
        requires { All (λ s. IsSeatOf B.tag self s × IsFree s) seats.items }
        ensures fewer { IsErr result ↔ (vec_len seats < hall_made self) }
        ensures back { IfErr result (λ e. (e.hall ≡ self) × (e.seats ≡ seats)) }
        ensures counts { IfErr result (λ e. (e.given ≡ vec_len seats) × (e.made ≡ hall_made self)) }
        ensures tag { IfOk result (λ b. B.tag b ≡ hall_tag B.tag self) }
        ensures goes_on { IfOk result (λ b. All (λ s. IsPrefix (seat_seen s) (B.list b)) seats.items) }
    {
        let made = self.made;
        if seats.len() < made as usize {
            let given = seats.len() as u32;
            return Err(StillOut {
                hall: self,
                seats,
                given,
                made,
            });
        }
        let all = self.gather(seats);
        Ok(self.end(all))
    }

    // Joins the seats into one.
    fn gather(&self, mut seats: Vec<Seat<B>>) -> SeatToken<B>
        requires seats { All (λ s. IsSeatOf B.tag self.now s × IsFree s) seats.items }
        requires some { 0 < vec_len seats }
        ensures table { result.table_id ≡ self.now.table.shared.table_id }
        ensures free { (result.me.0.turn ≡ None) × (result.me.1 ≡ []) }
        ensures numbers { length result.me.0.own ≡ vec_len seats }
        ensures goes_on { (list : List B.Row) → GoesOn result.me.0 list → All (λ s. IsPrefix (seat_seen s) list) seats.items }
    {
        let Some(Seat { seat: mut all }) = seats.pop() else {
            unreachable!()
        };
        while let Some(Seat { seat }) = seats.pop() {
            self.table.shared.join_seat::<JoinInto>(&mut all, seat);
        }
        all
    }

    // The book, where one seat has all numbers and no turn.
    fn end(self, all: SeatToken<B>) -> B
        requires table { all.table_id ≡ self.table.shared.table_id }
        requires free { all.me.0.turn ≡ None }
        requires numbers { self.made ≤ length all.me.0.own }
        ensures tag { B.tag result ≡ hall_tag B.tag self }
        ensures goes_on { GoesOn all.me.0 (B.list result) }
    {
        let Hall { table, made: _ } = self;
        let mut closed = table.close_with(all);
        let book = closed.take(0);
        closed.free();
        let Some(book) = book else { unreachable!() };
        book
    }
}
