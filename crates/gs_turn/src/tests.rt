ghost use Rattle.std.specs.Prelude.{◌≡◌, ◌≤◌, All, IfOk, vec_len};
ghost use Rattle.gs_turn.specs.Seats.{IsSeatOf, IsFree, hall_made};

use crate::{Hall, Mem, Seat, StillOut, Told};
use std::alloc::Global;
use std::sync::Wait;
use std::test::Fail;
use std::thread::{Threads, join};

const EACH: u64 = 1000;

// A list of numbers, which stands for itself.
#[derive(Drop)]
struct Numbers {
    rows: Vec<u64>,
}

impl Told for Numbers {
    type Tag = ();

    type Row = u64;

    ghost tag = { λ _. tt };

    ghost list = { λ book. book.rows.items };
}

fn opened(alloc: Global, seats: u32) -> Result<(Hall<Numbers>, Vec<Seat<Numbers>>), Fail>
    requires { (1 ≤ seats) × (seats ≤ 65) }
    ensures made { IfOk result (λ r. hall_made r.0 ≡ seats) }
    ensures seats { IfOk result (λ r. (vec_len r.1 ≡ seats) × All (λ s. IsSeatOf (λ _. tt) r.0 s × IsFree s) r.1.items) }
{
    let book = Numbers {
        rows: Vec::new(alloc),
    };
    match Hall::open(alloc, book, seats) {
        Ok(made) => Ok(made),
        Err((_, Mem)) => Err(Fail::new("no memory for a hall")),
    }
}

// One turn, in which the number is appended where memory allows it.
fn append<R: Wait>(rt: &R, hall: &Hall<Numbers>, seat: &mut Seat<Numbers>, number: u64) -> bool
    requires { IsSeatOf (λ _. tt) hall.now seat.old × IsFree seat.old }
    ensures { IsSeatOf (λ _. tt) hall.now seat.new × IsFree seat.new }
{
    let (turn, mut book) = hall.take(rt, seat);
    let done = book.rows.push(number).is_ok();
    hall.give(turn, book, seat);
    done
}

fn append_all<R: Wait>(
    rt: &R,
    hall: &Hall<Numbers>,
    mut seat: Seat<Numbers>,
    from: u64,
) -> (Seat<Numbers>, bool)
    requires seat { IsSeatOf (λ _. tt) hall.now seat × IsFree seat }
    requires from { from ≤ 1000000 }
    ensures { IsSeatOf (λ _. tt) hall.now result.0 × IsFree result.0 }
{
    let mut done = true;
    for k in 0..EACH {
        done &= append(rt, hall, &mut seat, from + k);
    }
    (seat, done)
}

// The closed book of a hall in which two threads appended their numbers side by side.
fn appended<R: Threads + Wait + Sync>(
    rt: &R,
    hall: Hall<Numbers>,
    mut seats: Vec<Seat<Numbers>>,
) -> Option<Numbers>
    requires made { (hall_made hall ≡ 2) × (vec_len seats ≡ 2) }
    requires seats { All (λ s. IsSeatOf (λ _. tt) hall s × IsFree s) seats.items }
{
    let second = seats.pop()?;
    let first = seats.pop()?;
    let ((first, first_done), (second, second_done)) = join(
        rt,
        || -> (Seat<Numbers>, bool)
            requires { IsSeatOf (λ _. tt) hall first × IsFree first }
            ensures { IsSeatOf (λ _. tt) hall result.0 × IsFree result.0 }
        { append_all(rt, &hall, first, 0) },
        || -> (Seat<Numbers>, bool)
            requires { IsSeatOf (λ _. tt) hall second × IsFree second }
            ensures { IsSeatOf (λ _. tt) hall result.0 × IsFree result.0 }
        { append_all(rt, &hall, second, EACH) },
    );
    seats.push_reserved(first);
    seats.push_reserved(second);
    let book = hall.close(seats).ok()?;
    (first_done && second_done).then_some(book)
}

#[test]
fn two_threads_append_under_turns(rt: HostRuntime) -> Result<(), Fail> {
    let (hall, seats) = opened(rt.alloc(), 2)?;
    let book = appended(&rt, hall, seats).ok_or("the book was lost")?;
    assert_eq!(rt; book.rows.len(), 2000);
    let mut firsts = 0;
    let mut seconds = 0;
    for row in book.rows.iter() {
        if *row < EACH {
            assert_eq!(rt; *row, firsts);
            firsts += 1;
        } else {
            assert_eq!(rt; *row, EACH + seconds);
            seconds += 1;
        }
    }
    assert_eq!(rt; (firsts, seconds), (EACH, EACH));
    Ok(())
}

#[test]
fn a_hall_closes_once_all_seats_are_back(rt: HostRuntime) -> Result<(), Fail> {
    let (hall, mut seats) = opened(rt.alloc(), 2)?;
    assert!(rt; append(&rt, &hall, &mut seats[0], 7));
    let kept = seats.pop().ok_or("no seat")?;
    let Err(
        StillOut {
            hall,
            mut seats,
            given,
            made,
        },
    ) = hall.close(seats)
    else {
        return Err(Fail::new("closed with a seat out"));
    };
    assert_eq!(rt; (given, made), (1, 2));
    seats.push_reserved(kept);
    let Ok(book) = hall.close(seats) else {
        return Err(Fail::new("all seats are back"));
    };
    assert_eq!(rt; book.rows.as_slice(), [7].as_slice());
    Ok(())
}
