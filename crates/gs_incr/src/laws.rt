//! Laws of cones that the crates above reason with. The calls do nothing.
#![tactic(auto)]

ghost use Rattle.std.specs.Prelude.{◌≡◌, ◌<◌, ℕ, List, false, length, true};
ghost use Rattle.gs_design.specs.Sizes.{FitSizes};
ghost use Rattle.gs_design.specs.Times.{time_at};
ghost use Rattle.gs_design.specs.Timing.{timing_of};
ghost use Rattle.gs_incr.specs.Seen.{has_seen, laid_over, seen_of};
ghost use Rattle.gs_move.specs.Cone.{in_cone};
ghost use Rattle.gs_move.specs.Moves.{after, is_move};
ghost use Rattle.gs_move.specs.declared.moves.Move.{Move};

use gs_design::Design;
use gs_move::moves_fit;
use gs_timing::{record_reads, timing_is_made};

/// What a move changes lies in its cone, and what is seen of the move is its cone: out of it records stay, and the timing after the move is
/// the one before it with the seen records laid over it.
pub fn cones_are_whole(design: &Design)
    ensures exact { (s : List ℕ) (m : Move) (n : ℕ) → n < length design.now.nets → has_seen (seen_of design.now s m) n ≡ in_cone design.now s m n }
    ensures outside { (s : List ℕ) (m : Move) (n : ℕ) → FitSizes design.now s → is_move design.now s m ≡ true → n < length design.now.nets → in_cone design.now s m n ≡ false → time_at (timing_of design.now s) n ≡ time_at (timing_of design.now (after s m)) n }
    ensures laid { (s : List ℕ) (m : Move) → FitSizes design.now s → is_move design.now s m ≡ true → laid_over (timing_of design.now s) (seen_of design.now s m) ≡ timing_of design.now (after s m) }
{
    moves_fit(design);
    record_reads(design);
    timing_is_made(design);
}
