//! Leakage.
#![tactic(auto)]

ghost use Rattle.std.specs.Prelude.{◌≡◌, ◌<◌, length};
ghost use Rattle.gs_design.specs.Amounts.{IsAmount};
ghost use Rattle.gs_design.specs.Sizes.{FitSizes, cell_of, leak_of};

use crate::amount::added;
use gs_design::{Design, InstId, SizeView, Sizes};
use gs_quantity::Micro;

// The leakage of an instance's cell.
#[inline]
fn leak_at(design: &Design, sizes: &Sizes, inst: InstId) -> Micro
    requires fit { FitSizes design.now sizes.now }
    requires inst { inst < length design.now.insts }
    ensures value { result ≡ (cell_of design.now sizes.now inst).leakage }
    ensures amount { IsAmount result }
{
    design
        .cell(design.insts.cell(inst, sizes.place(inst)))
        .leakage
}

/// The leakage of a design with these sizes: the sum of the leakages (`cell_leakage_power`) of all instances' cells, in millionths of the
/// library's unit. It is below 2^61. It takes no memory.
pub fn leakage(design: &Design, sizes: &Sizes) -> Micro
    requires { FitSizes design.now sizes.now }
    ensures { result ≡ leak_of design.now sizes.now }
{
    let mut total = Micro(0);
    for number in 0..design.insts.len() as u32 {
        total = added(total, leak_at(design, sizes, InstId(number)));
    }
    total
}
