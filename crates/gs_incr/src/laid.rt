//! Records that are laid over a timing.
#![tactic(auto)]

ghost use Rattle.std.specs.Prelude.{◌≡◌, ◌==◌, ◌<◌, ◌≤◌, ℕ, IfOk, None, Some, if◌then◌else◌, length, slice_index, slice_set};
ghost use Rattle.gs_incr.specs.Laid.{AreMarks, laid_at, records_laid};

use gs_design::{Edge, NetId, NetTime};
use gs_quantity::{Mem, Micro};
use std::alloc::{AllocError, Global};
use std::marker::Model;

/// For each net of a design a record, or none. Contracts see the list. To clear it costs nothing: each net has the number of the turn that
/// laid its record, and only records of the present turn count.
#[derive(Drop)]
pub struct Laid {
    turn: u64,
    marks: Vec<u64>,
    records: Vec<NetTime>,
}

impl Model for Laid {
    ghost use Rattle.std.specs.Prelude.{List, Option};
    ghost use Rattle.gs_design.specs.declared.time.NetTime.{NetTime};
    ghost use Rattle.gs_incr.specs.Laid.{AreMarks, records_laid};

    ghost Value = { List (Option NetTime) };

    ghost view = { λ l. records_laid l.turn l.marks.items l.records.items };

    ghost invariant = { λ l. AreMarks l.turn l.marks.items l.records.items };
}

fn edge_at_zero() -> Edge {
    Edge {
        arrival: Micro(0),
        slew: Micro(0),
    }
}

// A record that stands in a row until one is laid.
fn no_record(load_bound: Option<Micro>, slew_bound: Option<Micro>) -> NetTime {
    NetTime {
        load: Micro(0),
        load_bound,
        slew_bound,
        rise: edge_at_zero(),
        fall: edge_at_zero(),
    }
}

// Marks of no turn.
fn no_marks(alloc: Global, count: usize) -> Result<Vec<u64>, Mem>
    ensures many { IfOk result (λ v. length v.items ≡ count) }
    ensures zero { IfOk result (λ v. (n : ℕ) → n < count → slice_index v.items n ≡ 0) }
{
    Ok(vec![in alloc; 0; count]?)
}

fn no_records(alloc: Global, count: usize) -> Result<Vec<NetTime>, Mem>
    ensures { IfOk result (λ v. length v.items ≡ count) }
{
    let mut records = Vec::with_capacity(alloc, count)?;
    for _ in 0..count {
        let record = no_record(None, None);
        records.push(record).map_err(AllocError::from)?;
    }
    Ok(records)
}

// Takes all marks away.
fn unmark(marks: &mut Vec<u64>)
    ensures many { length marks.new.items ≡ length marks.old.items }
    ensures zero { (n : ℕ) → n < length marks.new.items → slice_index marks.new.items n ≡ 0 }
{
    for i in 0..marks.len() {
        marks[i] = 0;
    }
}

// The number of the next turn, which no mark has.
#[inline]
fn next_turn(turn: u64, marks: &mut Vec<u64>) -> u64
    requires { (n : ℕ) → n < length marks.old.items → slice_index marks.old.items n ≤ turn }
    ensures many { length marks.new.items ≡ length marks.old.items }
    ensures past { (n : ℕ) → n < length marks.new.items → slice_index marks.new.items n < result }
{
    if turn == u64::MAX {
        unmark(marks);
        return 1;
    }
    turn + 1
}

// The record in a row, if its mark is the turn.
#[inline]
fn marked(turn: u64, mark: u64, time: &NetTime) -> Option<NetTime>
    ensures { result ≡ if mark == turn then Some time.now else None }
{
    if mark == turn { Some(*time) } else { None }
}

// No record is laid yet.
fn fresh(marks: Vec<u64>, records: Vec<NetTime>) -> Laid
    requires many { length records.items ≡ length marks.items }
    requires zero { (n : ℕ) → n < length marks.items → slice_index marks.items n ≡ 0 }
    ensures many { length result ≡ length marks.items }
    ensures none { (n : ℕ) → laid_at result n ≡ None }
{
    Laid {
        turn: 1,
        marks,
        records,
    }
}

impl Laid {
    /// Place for the records of so many nets.
    pub fn new(alloc: Global, count: usize) -> Result<Laid, Mem>
        ensures many { IfOk result (λ l. length l ≡ count) }
        ensures none { IfOk result (λ l. (n : ℕ) → laid_at l n ≡ None) }
    {
        let marks = no_marks(alloc, count)?;
        let records = no_records(alloc, count)?;
        Ok(fresh(marks, records))
    }

    /// For how many nets it is.
    #[inline]
    pub fn count(&self) -> usize
        ensures { result ≡ length self.now }
    {
        self.marks.as_slice().len()
    }

    /// Takes all records away. It takes no memory.
    #[inline]
    pub fn clear(&mut self)
        ensures many { length self.new ≡ length self.old }
        ensures none { (n : ℕ) → laid_at self.new n ≡ None }
    {
        self.turn = next_turn(self.turn, &mut self.marks);
    }

    /// Lays a record. It takes no memory.
    #[inline]
    pub fn put(&mut self, net: NetId, time: NetTime)
        requires { net < length self.old }
        ensures { self.new ≡ slice_set self.old net (Some time) }
    {
        let at = net.index();
        self.marks[at] = self.turn;
        self.records[at] = time;
    }

    /// The record of a net, if one is laid. It takes no memory.
    #[inline]
    pub fn at(&self, net: NetId) -> Option<NetTime>
        requires { net < length self.now }
        ensures { result ≡ laid_at self.now net }
    {
        let at = net.index();
        marked(self.turn, self.marks[at], &self.records[at])
    }
}
