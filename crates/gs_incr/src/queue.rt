//! Ranks that wait.
#![tactic(auto)]

ghost use Rattle.std.specs.Prelude.{◌≡◌, ◌==◌, ◌+◌, ◌<◌, ◌≤◌, ◌||◌, [], ℕ, true, false, IfNone, IfSome, OnOk};
ghost use Rattle.std.specs.BinaryHeap.{heap_items, heap_len};
ghost use Rattle.gs_incr.specs.Queue.{IsFirstRank, IsLeastFirst, has, ranks_of};

use gs_quantity::Mem;
use std::alloc::{AllocError, Global};
use std::cmp::Reverse;
use std::collections::BinaryHeap;
use std::marker::Model;

/// A queue of ranks, the least first. Contracts see a list and say which ranks it has: neither its order nor how often it has a rank means
/// anything.
#[derive(Drop)]
pub struct Queue {
    heap: BinaryHeap<Reverse<u32>>,
}

impl Model for Queue {
    ghost use Rattle.std.specs.Prelude.{List, ℕ};
    ghost use Rattle.std.specs.BinaryHeap.{heap_items};
    ghost use Rattle.gs_incr.specs.Queue.{IsLeastFirst, ranks_of};

    ghost Value = { List ℕ };

    ghost view = { λ q. ranks_of (heap_items q.heap) };

    ghost invariant = { λ q. IsLeastFirst (heap_items q.heap) };
}

// The least rank of a heap, which is that of its first item.
#[inline]
fn least(heap: &BinaryHeap<Reverse<u32>>) -> Option<u32>
    requires { IsLeastFirst (heap_items heap.now) }
    ensures some { IfSome result (λ r. has (ranks_of (heap_items heap.now)) r ≡ true) }
    ensures least { IfSome result (λ r. (q : ℕ) → q < r → has (ranks_of (heap_items heap.now)) q ≡ false) }
    ensures first { IfSome result (λ r. IsFirstRank (heap_items heap.now) r) }
    ensures none { IfNone result ((q : ℕ) → has (ranks_of (heap_items heap.now)) q ≡ false) }
{
    match heap.peek() {
        Some(rank) => Some(rank.0),
        None => None,
    }
}

// Takes the first item out of a heap.
#[inline]
fn drop_first(heap: &mut BinaryHeap<Reverse<u32>>, rank: u32)
    requires order { IsLeastFirst (heap_items heap.old) }
    requires first { IsFirstRank (heap_items heap.old) rank }
    ensures order { IsLeastFirst (heap_items heap.new) }
    ensures shorter { heap_len heap.new + 1 ≡ heap_len heap.old }
    ensures same { (q : ℕ) → rank < q → has (ranks_of (heap_items heap.new)) q ≡ has (ranks_of (heap_items heap.old)) q }
{
    let _ = rank;
    let Some(_first) = heap.pop() else {
        unreachable!()
    };
}

// Takes ranks out of a heap until the least is not below a bound, which it answers.
fn first_from(heap: &mut BinaryHeap<Reverse<u32>>, bound: u32) -> Option<u32>
    requires { IsLeastFirst (heap_items heap.old) }
    ensures order { IsLeastFirst (heap_items heap.new) }
    ensures same { (q : ℕ) → bound ≤ q → has (ranks_of (heap_items heap.new)) q ≡ has (ranks_of (heap_items heap.old)) q }
    ensures some { IfSome result (λ r. has (ranks_of (heap_items heap.new)) r ≡ true) }
    ensures within { IfSome result (λ r. bound ≤ r) }
    ensures least { IfSome result (λ r. (q : ℕ) → q < r → has (ranks_of (heap_items heap.new)) q ≡ false) }
    ensures none { IfNone result ((q : ℕ) → has (ranks_of (heap_items heap.new)) q ≡ false) }
{
    while let Some(rank) = least(heap) {
        if bound <= rank {
            return Some(rank);
        }
        drop_first(heap, rank);
    }
    None
}

// Puts a rank into a heap.
#[inline]
fn push(heap: &mut BinaryHeap<Reverse<u32>>, rank: u32) -> Result<(), AllocError>
    requires { IsLeastFirst (heap_items heap.old) }
    ensures order { IsLeastFirst (heap_items heap.new) }
    ensures put { OnOk result ((q : ℕ) → has (ranks_of (heap_items heap.new)) q ≡ (has (ranks_of (heap_items heap.old)) q || (rank == q))) }
{
    heap.push(Reverse(rank))?;
    Ok(())
}

impl Queue {
    /// No rank. It takes no memory.
    pub fn new(alloc: Global) -> Queue
        ensures { result ≡ [] }
    {
        Queue {
            heap: BinaryHeap::new(alloc),
        }
    }

    /// Takes all ranks out. It takes no memory.
    #[inline]
    pub fn clear(&mut self)
        ensures { self.new ≡ [] }
    {
        self.heap.clear();
    }

    /// Puts a rank in.
    #[inline]
    pub fn put(&mut self, rank: u32) -> Result<(), Mem>
        ensures { OnOk result ((q : ℕ) → has self.new q ≡ (has self.old q || (rank == q))) }
    {
        push(&mut self.heap, rank)?;
        Ok(())
    }

    /// The least rank that is not below a bound, which stays in the queue. Ranks below the bound are taken out. It takes no memory.
    #[inline]
    pub fn first_from(&mut self, bound: u32) -> Option<u32>
        ensures same { (q : ℕ) → bound ≤ q → has self.new q ≡ has self.old q }
        ensures some { IfSome result (λ r. has self.new r ≡ true) }
        ensures within { IfSome result (λ r. bound ≤ r) }
        ensures least { IfSome result (λ r. (q : ℕ) → q < r → has self.new q ≡ false) }
        ensures none { IfNone result ((q : ℕ) → has self.new q ≡ false) }
    {
        first_from(&mut self.heap, bound)
    }
}
