//! The leakages of a move.
#![tactic(auto)]

ghost use Rattle.std.specs.Prelude.{◌≡◌, ◌<◌, length, true};
ghost use Rattle.gs_design.specs.Ends.{alt_cell};
ghost use Rattle.gs_design.specs.Insts.{inst_at};
ghost use Rattle.gs_design.specs.Sizes.{FitSizes};
ghost use Rattle.gs_move.specs.Fair.{new_leak, present_leak};
ghost use Rattle.gs_move.specs.Moves.{is_move};

use gs_design::{Design, InstId, SizeView, Sizes};
use gs_move::Move;
use gs_quantity::Micro;

// The leakage of the cell at a place among an instance's alternatives.
fn leak_at(design: &Design, inst: InstId, place: u32) -> Micro
    requires inst { inst < length design.now.insts }
    requires place { place < length (inst_at design.now.insts inst).alts }
    ensures { result ≡ (alt_cell design.now.cells (inst_at design.now.insts inst) place).leakage }
{
    design.cell(design.insts.cell(inst, place)).leakage
}

/// The leakage of the moved instance's present cell.
pub fn present_leak(design: &Design, sizes: &Sizes, mv: &Move) -> Micro
    requires sizes { FitSizes design.now sizes.now }
    requires mv { is_move design.now sizes.now mv.now ≡ true }
    ensures { result ≡ present_leak design.now sizes.now mv.now }
{
    leak_at(design, mv.inst, sizes.place(mv.inst))
}

/// The leakage of its new cell.
pub fn new_leak(design: &Design, sizes: &Sizes, mv: &Move) -> Micro
    requires { is_move design.now sizes.now mv.now ≡ true }
    ensures { result ≡ new_leak design.now mv.now }
{
    let _ = sizes;
    leak_at(design, mv.inst, mv.place)
}
