//! Instances and cells by name.
#![tactic(auto)]

ghost use Rattle.std.specs.Prelude.{◌≡◌, ◌<◌, length, IfOk};
ghost use Rattle.gs_design.specs.Parts.{parts_of};
ghost use Rattle.gs_sizes.specs.Reader.{Knows};
ghost use Rattle.gs_sizes.specs.Sizes.{place_named};

use gs_design::{Design, InstId};
use gs_names::NameMap;
use gs_text::Name;
use std::alloc::{AllocError, Global};

/// A map from the names of the instances to their numbers. Names that stand twice would find the first.
pub fn inst_names(alloc: Global, design: &Design) -> Result<NameMap<u32>, AllocError>
    ensures { IfOk result (Knows (parts_of design.now)) }
{
    let count = design.insts.len() as u32;
    let mut names = NameMap::new(alloc, design.insts.len() / 8 + 1)?;
    for inst in (0..count).rev() {
        let name = Name::copy_of(alloc, design.insts.name(InstId(inst)).as_bytes())?;
        let _ = names.insert(name, inst)?;
    }
    Ok(names)
}

/// The place of the cell of a name among the alternatives of an instance.
pub fn place_named(design: &Design, inst: InstId, cell: &[u8]) -> Option<u32>
    requires { inst < length design.now.insts }
    ensures { result ≡ place_named (parts_of design.now) inst cell.now }
{
    let alts = design.insts.alts(inst);
    for place in 0..alts.len() {
        if design.cell(alts[place]).name.is(cell) {
            return Some(place as u32);
        }
    }
    None
}
