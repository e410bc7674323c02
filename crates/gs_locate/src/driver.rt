//! Places at which a net is driven.

ghost use Rattle.std.specs.Prelude.{◌≡◌, ◌≤◌, ℕ, Bool, List, length, IfOk};
ghost use Rattle.gs_text.specs.Bytes.{max_text};
ghost use Rattle.gs_text.specs.declared.kinds.Style.TheVariants.{Verilog};
ghost use Rattle.gs_locate.specs.Found.{IsNthLocated};
ghost use Rattle.gs_locate.specs.Verilog.{is_driven};

use crate::search::{Sought, locate_nth};
use crate::standing::text_at;
use crate::verilog::{is_connected_net, is_declared};
use gs_text::{Piece, Style};
use std::alloc::{AllocError, Global};

/// Which pins drive, as the caller's library has it.
pub trait Outputs {
    ghost drives: { Self → List ℕ → List ℕ → Bool };

    /// Whether the pin of a cell drives its net.
    fn drives(&self, cell: &[u8], pin: &[u8]) -> bool
        ensures { result ≡ drives self.now cell.now pin.now };
}

/// A net where it is driven.
#[derive(Drop)]
struct DriverOf<'a, O> {
    outputs: &'a O,
    net: &'a [u8],
}

impl<'a, O: Outputs> Sought for DriverOf<'a, O> {
    ghost use Rattle.gs_locate.specs.Verilog.{is_driven};

    ghost test = { λ s. is_driven (O.drives s.outputs.now) s.net.now };

    fn is_at(&self, bytes: &[u8], pieces: &[Piece], start: usize, at: usize) -> bool {
        (is_connected_net(self.net, bytes, pieces, start, at)
            && self.outputs.drives(
                text_at(bytes, pieces, start),
                text_at(bytes, pieces, at.saturating_sub(2)),
            ))
            || is_declared(b"input", self.net, bytes, pieces, start, at)
    }
}

/// The place of a net where it is driven with `n` places before at which it is driven too: where it is connected to a pin that drives, or
/// is declared an input.
///
/// # Errors
///
/// Want of memory.
pub fn driver_place<O: Outputs>(
    alloc: Global,
    bytes: &[u8],
    outputs: &O,
    net: &[u8],
    n: usize,
) -> Result<Option<u32>, AllocError>
    requires { length bytes.now ≤ max_text }
    ensures { IfOk result (IsNthLocated (is_driven (O.drives outputs.now) net.now) n Verilog bytes.now) }
{
    locate_nth(alloc, Style::Verilog, bytes, &DriverOf { outputs, net }, n)
}
