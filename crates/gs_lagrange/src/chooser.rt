//! A parallel map over instances.
#![tactic(auto)]

ghost use Rattle.std.specs.Prelude.{◌≡◌, ◌<◌, IfOk, map};
ghost use Rattle.std.specs.List.{range_with_len};

use gs_design::Sizes;
use gs_quantity::Mem;
use rayon::prelude::*;
use std::alloc::Global;
use std::thread::Threads;

// As many instances as a thread takes at least.
const LEAST_SHARE: usize = 64;

/// Whatever chooses a place for each instance. `count` is the number of instances, `chosen` the place of each.
pub trait Chooser: Sync {
    ghost use Rattle.std.specs.Prelude.{ℕ};

    ghost count: { Self → ℕ };

    ghost chosen: { Self → ℕ → ℕ };

    /// The place of the instance of this number.
    fn choose(&self, number: usize) -> u32
        requires { number < count self.now }
        ensures { result ≡ chosen self.now number };
}

/// The places that all instances take, chosen in parallel. No answer shows how many threads took part.
///
/// # Errors
///
/// `Mem` is want of memory.
pub fn choose_all<C: Chooser, R: Threads + Sync>(
    rt: &R,
    alloc: Global,
    chooser: &C,
    count: usize,
) -> Result<Sizes, Mem>
    requires { count ≡ C.count chooser.now }
    ensures { IfOk result (λ s. s ≡ map (C.chosen chooser.now) (range_with_len 0 count)) }
{
    let places = (0..count)
        .into_par_iter()
        .with_min_len(LEAST_SHARE)
        .map(
            |number: usize| -> u32
                requires { number < C.count chooser.now }
                ensures { result ≡ C.chosen chooser.entry.now number }
            { chooser.choose(number) },
        )
        .collect::<Vec<u32>>(rt, alloc)?;
    Ok(Sizes::from_vec(places))
}
