//! Numbers, with how often each stands among them.
#![tactic(auto)]

ghost use Rattle.std.specs.Prelude.{◌≡◌, ◌<◌, ℕ, All, IfOk, min, slice_index};
ghost use Rattle.gs_list.specs.Keys.{count_of};

use gs_list::Rows;
use std::alloc::{AllocError, Global};
use std::marker::Model;

/// Numbers below a limit, with how often each stands among them, so that asking for one is no search. Contracts see the list.
#[derive(Drop)]
pub struct Tally {
    numbers: Rows<u32>,
    // how often each stands there; 255 for more
    counts: Vec<u8>,
}

impl Model for Tally {
    ghost use Rattle.std.specs.Prelude.{◌≡◌, ℕ, List, min, slice_index};
    ghost use Rattle.gs_list.specs.Keys.{count_of};

    ghost Value = { List ℕ };

    ghost view = { λ t. t.numbers };

    ghost invariant = { λ t. (n : ℕ) → slice_index t.counts.items n ≡ min 255 (count_of t.numbers n) };
}

// How often each number below the limit stands among these; 255 for more.
fn counts_of(alloc: Global, numbers: &[u32], limit: usize) -> Result<Vec<u8>, AllocError>
    requires { All (λ n. n < limit) numbers.now }
    ensures { IfOk result (λ v. (n : ℕ) → slice_index v.items n ≡ min 255 (count_of numbers.now n)) }
{
    let mut counts = vec![in alloc; 0u8; limit]?;
    for i in 0..numbers.len() {
        let place = numbers[i] as usize;
        counts[place] = counts[place].saturating_add(1);
    }
    Ok(counts)
}

// The count at a place, 0 past the end.
fn count_at(counts: &[u8], place: usize) -> u8
    ensures { result ≡ slice_index counts.now place }
{
    if place < counts.len() {
        counts[place]
    } else {
        0
    }
}

impl Tally {
    ghost use Rattle.std.specs.Prelude.{◌≡◌, ◌<◌, All, IfOk, nat_lt};
    ghost use Rattle.gs_list.specs.Keys.{count_of};
    ghost use Rattle.gs_survey.specs.Numbers.{is_one_of};

    /// These numbers.
    pub fn new(alloc: Global, numbers: Rows<u32>, limit: usize) -> Result<Tally, AllocError>
        requires { All (λ n. n < limit) numbers }
        ensures { IfOk result (λ t. t ≡ numbers) }
    {
        let counts = counts_of(alloc, numbers.as_slice(), limit)?;
        Ok(Tally { numbers, counts })
    }

    /// Whether a number is one of these.
    pub fn has(&self, number: usize) -> bool
        ensures { result ≡ is_one_of self.now number }
    {
        count_at(self.counts.as_slice(), number) > 0
    }

    /// Whether a number stands among these more than once.
    pub fn has_more(&self, number: usize) -> bool
        ensures { result ≡ nat_lt 1 (count_of self.now number) }
    {
        count_at(self.counts.as_slice(), number) > 1
    }

    /// The numbers.
    pub fn as_slice(&self) -> &[u32]
        ensures { result.now ≡ self.now }
    {
        self.numbers.as_slice()
    }
}
