//! Writing sizes.
#![tactic(auto)]

ghost use Rattle.std.specs.Prelude.{◌≡◌, ◌<◌, ◌++◌, length, IfOk, OnOk};
ghost use Rattle.gs_design.specs.Sizes.{FitSizes};
ghost use Rattle.gs_sizes.specs.Written.{line_text, sizes_text};

use gs_design::{Design, InstId, SizeView, Sizes};
use gs_quantity::Mem;
use std::alloc::{AllocError, Global};

// Puts the line of an instance last.
fn add_line(
    text: &mut Vec<u8>,
    design: &Design,
    sizes: &Sizes,
    inst: InstId,
) -> Result<(), AllocError>
    requires fit { FitSizes design.now sizes.now }
    requires inst { inst < length design.now.insts }
    ensures { OnOk result (text.new.items ≡ text.old.items ++ line_text design.now sizes.now inst) }
{
    let cell = design.cell(design.insts.cell(inst, sizes.place(inst)));
    text.extend_from_slice(design.insts.name(inst).as_bytes())?;
    text.push(b' ')?;
    text.extend_from_slice(cell.name.as_bytes())?;
    text.push(b'\n')?;
    Ok(())
}

/// The text of sizes of a design: for each instance in order a line with its name, one space and its cell.
///
/// # Errors
///
/// `Mem` is want of memory.
pub fn write_sizes(alloc: Global, design: &Design, sizes: &Sizes) -> Result<Vec<u8>, Mem>
    requires { FitSizes design.now sizes.now }
    ensures { IfOk result (λ v. v.items ≡ sizes_text design.now sizes.now) }
{
    let mut text = Vec::new(alloc);
    for inst in 0..design.insts.len() as u32 {
        add_line(&mut text, design, sizes, InstId(inst))?;
    }
    Ok(text)
}
