//! The Fair moves of one instance.
#![tactic(auto)]

ghost use Rattle.std.specs.Prelude.{◌≡◌, ◌<◌, ◌++◌, [], ◌∷◌, IfOk, OnOk, length};
ghost use Rattle.gs_sweep.specs.Inst.{fair_of_inst};

use crate::fair::is_fair_by;
use crate::swept::Swept;
use gs_design::{Design, InstId, SizeView};
use gs_incr::Scratch;
use gs_move::{Judge, Move};
use gs_quantity::Mem;
use std::alloc::{AllocError, Global};

// Puts one move last.
fn add(found: &mut Vec<Move>, mv: Move) -> Result<(), AllocError>
    ensures { OnOk result (found.new.items ≡ found.old.items ++ mv ∷ []) }
{
    found.push(mv)?;
    Ok(())
}

// The Fair moves of one instance, by place.
fn fair_of_inst<J: Judge>(
    alloc: Global,
    scratch: &mut Scratch,
    swept: &Swept<J>,
    inst: InstId,
) -> Result<Vec<Move>, Mem>
    requires nets { scratch.old.nets ≡ length swept.now.design.now.nets }
    requires inst { inst < length swept.now.design.now.insts }
    ensures nets { scratch.new.nets ≡ scratch.old.nets }
    ensures found { IfOk result (λ v. v.items ≡ fair_of_inst (J.answers swept.now.judge.now) swept.now.design.now swept.now.sizes.now inst) }
{
    let present = swept.sizes.place(inst);
    let mut found = Vec::new(alloc);
    for place in 0..swept.design.insts.alts(inst).len() as u32 {
        if place == present {
            continue;
        }
        let mv = Move { inst, place };
        let fair = is_fair_by(scratch, swept, &mv)?;
        if !fair {
            continue;
        }
        add(&mut found, mv)?;
    }
    Ok(found)
}

// Memory for a design: what was kept, where it can be used, or else new memory.
fn scratch_for(alloc: Global, design: &Design, kept: &mut Option<Scratch>) -> Result<Scratch, Mem>
    ensures { IfOk result (λ s. s.nets ≡ length design.now.nets) }
{
    if let Some(scratch) = kept.take() {
        if scratch.is_for(design) {
            return Ok(scratch);
        }
    }
    Scratch::new(alloc, design)
}

/// The Fair moves of the instance of a number, by place. The memory for trials is kept from call to call.
///
/// # Errors
///
/// `Mem` is want of memory.
pub fn fair_at<J: Judge>(
    alloc: Global,
    swept: &Swept<J>,
    kept: &mut Option<Scratch>,
    number: usize,
) -> Result<Vec<Move>, Mem>
    requires { number < length swept.now.design.now.insts }
    ensures { IfOk result (λ v. v.items ≡ fair_of_inst (J.answers swept.now.judge.now) swept.now.design.now swept.now.sizes.now number) }
{
    let _count = swept.design.insts.len();
    let mut scratch = scratch_for(alloc, swept.design, kept)?;
    let found = fair_of_inst(alloc, &mut scratch, swept, InstId(number as u32))?;
    *kept = Some(scratch);
    Ok(found)
}
