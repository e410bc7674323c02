//! The sizes of the netlist.
#![tactic(auto)]

ghost use Rattle.std.specs.Prelude.{◌≡◌, ◌<◌, IfOk, length, map};
ghost use Rattle.gs_design.specs.Insts.{inst_first};

use crate::design::Design;
use crate::ids::InstId;
use crate::insts::Insts;
use crate::view::Sizes;
use gs_quantity::Mem;
use std::alloc::{AllocError, Global};

// The place of the netlist's cell of each instance.
fn firsts(alloc: Global, insts: &Insts) -> Result<Vec<u32>, AllocError>
    requires { length insts.now < 2097152 }
    ensures { IfOk result (λ v. v.items ≡ map inst_first insts.now) }
{
    let mut places = Vec::with_capacity(alloc, insts.len())?;
    for number in 0..insts.len() as u32 {
        places.push(insts.first(InstId(number)))?;
    }
    Ok(places)
}

impl Design {
    ghost use Rattle.std.specs.Prelude.{◌≡◌, IfOk};
    ghost use Rattle.gs_design.specs.Sizes.{FitSizes, netlist_sizes};

    /// The sizes of the netlist: each instance has the cell that the netlist names.
    pub fn netlist_sizes(&self, alloc: Global) -> Result<Sizes, Mem>
        ensures value { IfOk result (λ s. s ≡ netlist_sizes self.now) }
        ensures fit { IfOk result (λ s. FitSizes self.now s) }
    {
        let places = firsts(alloc, &self.insts)?;
        Ok(Sizes::from_vec(places))
    }
}
