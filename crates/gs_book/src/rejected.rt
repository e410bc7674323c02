//! Which entry rejected which move last.
#![tactic(auto)]

ghost use Rattle.std.specs.Prelude.{◌≡◌, ◌+◌, ◌<◌, ◌≤◌, ℕ, true, IfOk, length, replicate, slice_index};
ghost use Rattle.gs_book.specs.Noted.{AreStartsOf, Noted, alts_before, noted_with, number_of, spot_of};
ghost use Rattle.gs_move.specs.declared.moves.Move.{Move as MoveOf};

use gs_design::{Design, InstId};
use gs_move::Move;
use std::alloc::{AllocError, Global};
use std::marker::Model;

/// For each place of each instance a number: that of the last entry that rejects the move to it, counted from 1, or 0. All lie in one piece of
/// memory.
#[derive(Drop)]
pub(crate) struct Rejected {
    // where the numbers of each instance begin
    starts: Vec<u32>,
    numbers: Vec<u64>,
}

impl Model for Rejected {
    ghost use Rattle.gs_book.specs.Noted.{Noted};

    ghost Value = { Noted };

    ghost view = { λ r. record { starts = r.starts.items; numbers = r.numbers.items } };
}

// How many alternatives an instance has.
#[inline]
fn alt_count(design: &Design, number: u32) -> u32
    requires { number < length design.now.insts }
    ensures value { result + alts_before design.now.insts number ≡ alts_before design.now.insts (number + 1) }
    ensures few { result ≤ 1024 }
{
    design.insts.alts(InstId(number)).len() as u32
}

// Where the numbers of each instance begin, and where the last ones end.
fn starts_of(alloc: Global, design: &Design) -> Result<(Vec<u32>, u32), AllocError>
    ensures as_many { IfOk result (λ r. length r.0.items ≡ length design.now.insts) }
    ensures begin { IfOk result (λ r. (g : ℕ) → g < length design.now.insts → slice_index r.0.items g ≡ alts_before design.now.insts g) }
    ensures end { IfOk result (λ r. r.1 ≡ alts_before design.now.insts (length design.now.insts)) }
{
    let count = design.insts.len() as u32;
    let mut starts = Vec::with_capacity(alloc, count as usize)?;
    let mut start: u32 = 0;
    for number in 0..count {
        starts.push(start)?;
        start += alt_count(design, number);
    }
    Ok((starts, start))
}

// So many zeros.
fn zeros(alloc: Global, count: usize) -> Result<Vec<u64>, AllocError>
    ensures { IfOk result (λ v. v.items ≡ replicate count 0) }
{
    Ok(vec![in alloc; 0u64; count]?)
}

impl Rejected {
    /// A number for each place of each instance of a design, each 0.
    pub(crate) fn none(alloc: Global, design: &Design) -> Result<Rejected, AllocError>
        ensures places { IfOk result (λ r. AreStartsOf design.now.insts r) }
        ensures zero { IfOk result (λ r. (m : MoveOf) → number_of r m ≡ 0) }
    {
        let (starts, end) = starts_of(alloc, design)?;
        let numbers = zeros(alloc, end as usize)?;
        Ok(Rejected { starts, numbers })
    }

    // Where the number of a move stands.
    #[inline]
    fn spot(&self, mv: &Move) -> usize
        requires inst { mv.now.inst < length self.now.starts }
        ensures { result ≡ spot_of self.now.starts mv.now }
    {
        self.starts[mv.inst.index()] as usize + mv.place as usize
    }

    /// The number of a move. It takes no memory.
    #[inline]
    pub(crate) fn at(&self, mv: &Move) -> u64
        requires inst { mv.now.inst < length self.now.starts }
        requires place { spot_of self.now.starts mv.now < length self.now.numbers }
        ensures { result ≡ number_of self.now mv.now }
    {
        self.numbers[self.spot(mv)]
    }

    /// Gives a move another number. It takes no memory.
    #[inline]
    pub(crate) fn put(&mut self, mv: &Move, number: u64)
        requires inst { mv.now.inst < length self.old.starts }
        requires place { spot_of self.old.starts mv.now < length self.old.numbers }
        ensures { self.new ≡ noted_with self.old mv.now number }
    {
        let spot = self.spot(mv);
        self.numbers[spot] = number;
    }
}

#[cfg(test)]
mod tests {
    use super::*;
    use gs_design::InstId;
    use std::test::Fail;

    // One place of instance 0, three of instance 1 and two of instance 2.
    fn six(alloc: Global) -> Result<Rejected, Fail> {
        Ok(Rejected {
            starts: vec![in alloc; 0, 1, 4]?,
            numbers: vec![in alloc; 0, 0, 0, 0, 0, 0]?,
        })
    }

    // Whether the move has a number.
    fn has_spot(rejected: &Rejected, mv: &Move) -> bool
        ensures inst { result ≡ true → mv.now.inst < length rejected.now.starts }
        ensures place { result ≡ true → spot_of rejected.now.starts mv.now < length rejected.now.numbers }
    {
        mv.inst.index() < rejected.starts.len() && rejected.spot(mv) < rejected.numbers.len()
    }

    fn put(rejected: &mut Rejected, inst: u32, place: u32, number: u64) {
        let mv = Move {
            inst: InstId(inst),
            place,
        };
        if has_spot(rejected, &mv) {
            rejected.put(&mv, number);
        }
    }

    fn at(rejected: &Rejected, inst: u32, place: u32) -> Option<u64> {
        let mv = Move {
            inst: InstId(inst),
            place,
        };
        if has_spot(rejected, &mv) {
            return Some(rejected.at(&mv));
        }
        None
    }

    #[test]
    fn each_move_has_a_number_of_its_own(rt: HostRuntime) -> Result<(), Fail> {
        let mut rejected = six(rt.alloc())?;
        assert_eq!(rt; at(&rejected, 1, 2), Some(0));
        put(&mut rejected, 1, 2, 7);
        put(&mut rejected, 2, 0, 8);
        put(&mut rejected, 0, 0, 9);
        assert_eq!(rt; at(&rejected, 0, 0), Some(9));
        assert_eq!(rt; at(&rejected, 1, 0), Some(0));
        assert_eq!(rt; at(&rejected, 1, 2), Some(7));
        assert_eq!(rt; at(&rejected, 2, 0), Some(8));
        assert_eq!(rt; at(&rejected, 2, 1), Some(0));
        assert_eq!(rt; at(&rejected, 2, 2), None);
        put(&mut rejected, 1, 2, 12);
        assert_eq!(rt; at(&rejected, 1, 2), Some(12));
        Ok(())
    }
}
