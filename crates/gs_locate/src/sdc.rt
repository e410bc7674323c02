//! Places in constraints.

ghost use Rattle.std.specs.Prelude.{◌≡◌, ◌≤◌, length, IfOk};
ghost use Rattle.std.specs.List.{All};
ghost use Rattle.gs_text.specs.Bytes.{max_text};
ghost use Rattle.gs_text.specs.Pieces.{LiesIn};
ghost use Rattle.gs_text.specs.declared.kinds.Style.TheVariants.{Sdc};
ghost use Rattle.gs_locate.specs.Found.{IsLocated};
ghost use Rattle.gs_locate.specs.Sdc.{is_constrained, is_port_among, is_port_listed, is_sole_port, opens_ports};

use crate::search::{Sought, locate};
use crate::standing::{is_mark, is_name, mark_before};
use gs_text::{Piece, Style};
use std::alloc::{AllocError, Global};

/// Whether `[get_ports` begins at a place.
fn opens_ports(bytes: &[u8], pieces: &[Piece], at: usize) -> bool
    requires inside { All (LiesIn (length bytes.now)) pieces.now }
    requires few { length pieces.now ≤ max_text }
    requires at { at ≤ length pieces.now }
    ensures { result ≡ opens_ports bytes.now pieces.now at }
{
    is_mark(b'[', bytes, pieces, at) && is_name(b"get_ports", bytes, pieces, at + 1)
}

/// Whether the piece at a place is the one port that its command names.
fn is_sole_port(bytes: &[u8], pieces: &[Piece], mark: usize, at: usize) -> bool
    requires inside { All (LiesIn (length bytes.now)) pieces.now }
    requires few { length pieces.now ≤ max_text }
    requires mark { mark ≤ length pieces.now }
    ensures { result ≡ is_sole_port bytes.now pieces.now mark at }
{
    at == mark + 2 && opens_ports(bytes, pieces, mark)
}

/// Whether an opening brace of ports is the mark.
fn is_port_among(bytes: &[u8], pieces: &[Piece], mark: usize) -> bool
    requires inside { All (LiesIn (length bytes.now)) pieces.now }
    requires few { length pieces.now ≤ max_text }
    requires mark { mark ≤ length pieces.now }
    ensures { result ≡ is_port_among bytes.now pieces.now mark }
{
    is_mark(b'{', bytes, pieces, mark) && opens_ports(bytes, pieces, mark.saturating_sub(2))
}

/// Whether the piece at a place is one of the ports that its command names.
fn is_port_listed(bytes: &[u8], pieces: &[Piece], mark: usize, at: usize) -> bool
    requires inside { All (LiesIn (length bytes.now)) pieces.now }
    requires few { length pieces.now ≤ max_text }
    requires mark { mark ≤ length pieces.now }
    ensures { result ≡ is_port_listed bytes.now pieces.now mark at }
{
    is_sole_port(bytes, pieces, mark, at) || is_port_among(bytes, pieces, mark)
}

/// A port in the commands of a word.
#[derive(Drop)]
struct PortOf<'a> {
    command: &'a [u8],
    port: &'a [u8],
}

impl<'a> Sought for PortOf<'a> {
    ghost use Rattle.gs_locate.specs.Sdc.{is_constrained};

    ghost test = { λ s. is_constrained s.command.now s.port.now };

    fn is_at(&self, bytes: &[u8], pieces: &[Piece], start: usize, at: usize) -> bool {
        is_name(self.port, bytes, pieces, at)
            && is_name(self.command, bytes, pieces, start)
            && is_port_listed(bytes, pieces, mark_before(pieces, at), at)
    }
}

/// The place of a port among those that a command names, of the first command of that word (`create_clock`, `set_input_delay`,
/// `set_output_delay`, `set_load`, `set_driving_cell`) that names it.
///
/// # Errors
///
/// Want of memory.
pub fn constraint_place(
    alloc: Global,
    bytes: &[u8],
    command: &[u8],
    port: &[u8],
) -> Result<Option<u32>, AllocError>
    requires { length bytes.now ≤ max_text }
    ensures { IfOk result (IsLocated (is_constrained command.now port.now) Sdc bytes.now) }
{
    locate(alloc, Style::Sdc, bytes, &PortOf { command, port })
}
