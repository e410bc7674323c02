//! Places in SPEF.

ghost use Rattle.std.specs.Prelude.{◌≡◌, ◌≤◌, length, IfOk};
ghost use Rattle.gs_text.specs.Bytes.{max_text};
ghost use Rattle.gs_text.specs.declared.kinds.Style.TheVariants.{Spef};
ghost use Rattle.gs_locate.specs.Found.{IsNthLocated};
ghost use Rattle.gs_locate.specs.Spef.{is_net_block};

use crate::search::{Sought, locate_nth};
use crate::standing::is_word;
use gs_text::{Piece, Style};
use std::alloc::{AllocError, Global};

/// The block of a net.
#[derive(Drop)]
struct NetBlock;

impl Sought for NetBlock {
    ghost use Rattle.gs_locate.specs.Spef.{is_net_block};

    ghost test = { λ s. is_net_block };

    fn is_at(&self, bytes: &[u8], pieces: &[Piece], start: usize, at: usize) -> bool {
        at == start + 1 && is_word(b"*D_NET", bytes, pieces, start)
    }
}

/// The place of the name, or of the index, with which block `n` of a net begins, counted from 0. In a text that is read this is the
/// block of wire `n`.
///
/// # Errors
///
/// Want of memory.
pub fn net_block_place(alloc: Global, bytes: &[u8], n: usize) -> Result<Option<u32>, AllocError>
    requires { length bytes.now ≤ max_text }
    ensures { IfOk result (IsNthLocated is_net_block n Spef bytes.now) }
{
    locate_nth(alloc, Style::Spef, bytes, &NetBlock, n)
}
