//! Places in a netlist.

ghost use Rattle.std.specs.Prelude.{◌≡◌, ◌≤◌, length, IfOk};
ghost use Rattle.std.specs.List.{All};
ghost use Rattle.gs_text.specs.Bytes.{max_text};
ghost use Rattle.gs_text.specs.Pieces.{LiesIn};
ghost use Rattle.gs_text.specs.declared.kinds.Style.TheVariants.{Verilog};
ghost use Rattle.gs_locate.specs.Found.{IsLocated};
ghost use Rattle.gs_locate.specs.Verilog.{is_cell, is_connected_net, is_declared, is_instance, is_instance_cell, is_instance_name, is_instance_named, is_pin, is_port};

use crate::search::{Sought, locate};
use crate::standing::{is_mark, is_name, is_word};
use gs_text::{Piece, Style};
use std::alloc::{AllocError, Global};

/// Whether the statement that begins at a place is an instance's.
pub(crate) fn is_instance(bytes: &[u8], pieces: &[Piece], start: usize) -> bool
    requires inside { All (LiesIn (length bytes.now)) pieces.now }
    requires few { length pieces.now ≤ max_text }
    requires start { start ≤ length pieces.now }
    ensures { result ≡ is_instance bytes.now pieces.now start }
{
    is_mark(b'(', bytes, pieces, start + 2) && !is_word(b"module", bytes, pieces, start)
}

/// Whether it is that of the instance of a name.
fn is_instance_named(name: &[u8], bytes: &[u8], pieces: &[Piece], start: usize) -> bool
    requires inside { All (LiesIn (length bytes.now)) pieces.now }
    requires few { length pieces.now ≤ max_text }
    requires start { start ≤ length pieces.now }
    ensures { result ≡ is_instance_named name.now bytes.now pieces.now start }
{
    is_instance(bytes, pieces, start) && is_name(name, bytes, pieces, start + 1)
}

/// Whether a name stands at a place in a declaration that begins with a word.
pub(crate) fn is_declared(
    word: &[u8],
    name: &[u8],
    bytes: &[u8],
    pieces: &[Piece],
    start: usize,
    at: usize,
) -> bool
    requires inside { All (LiesIn (length bytes.now)) pieces.now }
    ensures { result ≡ is_declared word.now name.now bytes.now pieces.now start at }
{
    start < at && is_name(name, bytes, pieces, at) && is_word(word, bytes, pieces, start)
}

/// The name of an instance.
#[derive(Drop)]
struct InstanceName<'a> {
    name: &'a [u8],
}

impl<'a> Sought for InstanceName<'a> {
    ghost use Rattle.gs_locate.specs.Verilog.{is_instance_name};

    ghost test = { λ s. is_instance_name s.name.now };

    fn is_at(&self, bytes: &[u8], pieces: &[Piece], start: usize, at: usize) -> bool {
        at == start + 1 && is_instance_named(self.name, bytes, pieces, start)
    }
}

/// The cell of an instance.
#[derive(Drop)]
struct InstanceCell<'a> {
    name: &'a [u8],
}

impl<'a> Sought for InstanceCell<'a> {
    ghost use Rattle.gs_locate.specs.Verilog.{is_instance_cell};

    ghost test = { λ s. is_instance_cell s.name.now };

    fn is_at(&self, bytes: &[u8], pieces: &[Piece], start: usize, at: usize) -> bool {
        at == start && is_instance_named(self.name, bytes, pieces, start)
    }
}

/// A cell, in any instance.
#[derive(Drop)]
struct CellUse<'a> {
    cell: &'a [u8],
}

impl<'a> Sought for CellUse<'a> {
    ghost use Rattle.gs_locate.specs.Verilog.{is_cell};

    ghost test = { λ s. is_cell s.cell.now };

    fn is_at(&self, bytes: &[u8], pieces: &[Piece], start: usize, at: usize) -> bool {
        at == start && is_instance(bytes, pieces, start) && is_name(self.cell, bytes, pieces, at)
    }
}

/// A pin of an instance.
#[derive(Drop)]
struct PinUse<'a> {
    inst: &'a [u8],
    pin: &'a [u8],
}

impl<'a> Sought for PinUse<'a> {
    ghost use Rattle.gs_locate.specs.Verilog.{is_pin};

    ghost test = { λ s. is_pin s.inst.now s.pin.now };

    fn is_at(&self, bytes: &[u8], pieces: &[Piece], start: usize, at: usize) -> bool {
        is_name(self.pin, bytes, pieces, at)
            && is_mark(b'.', bytes, pieces, at.saturating_sub(1))
            && is_mark(b'(', bytes, pieces, at + 1)
            && is_instance_named(self.inst, bytes, pieces, start)
    }
}

/// A net that is connected to a pin.
#[derive(Drop)]
struct NetUse<'a> {
    net: &'a [u8],
}

impl<'a> Sought for NetUse<'a> {
    ghost use Rattle.gs_locate.specs.Verilog.{is_connected_net};

    ghost test = { λ s. is_connected_net s.net.now };

    fn is_at(&self, bytes: &[u8], pieces: &[Piece], start: usize, at: usize) -> bool {
        is_connected_net(self.net, bytes, pieces, start, at)
    }
}

/// Whether a net stands at a place between the parentheses after a pin of any instance.
pub(crate) fn is_connected_net(
    net: &[u8],
    bytes: &[u8],
    pieces: &[Piece],
    start: usize,
    at: usize,
) -> bool
    requires inside { All (LiesIn (length bytes.now)) pieces.now }
    requires few { length pieces.now ≤ max_text }
    requires start { start ≤ at }
    requires at { at ≤ length pieces.now }
    ensures { result ≡ is_connected_net net.now bytes.now pieces.now start at }
{
    is_name(net, bytes, pieces, at)
        && is_mark(b'(', bytes, pieces, at.saturating_sub(1))
        && is_mark(b')', bytes, pieces, at + 1)
        && is_instance(bytes, pieces, start)
}

/// A name in the declarations of one direction.
#[derive(Drop)]
struct PortUse<'a> {
    name: &'a [u8],
}

impl<'a> Sought for PortUse<'a> {
    ghost use Rattle.gs_locate.specs.Verilog.{is_port};

    ghost test = { λ s. is_port s.name.now };

    fn is_at(&self, bytes: &[u8], pieces: &[Piece], start: usize, at: usize) -> bool {
        is_declared(b"input", self.name, bytes, pieces, start, at)
            || is_declared(b"output", self.name, bytes, pieces, start, at)
    }
}

/// The place of an instance's name, of the first that has the name.
///
/// # Errors
///
/// Want of memory; and so of all calls of this file.
pub fn instance_place(alloc: Global, bytes: &[u8], name: &[u8]) -> Result<Option<u32>, AllocError>
    requires { length bytes.now ≤ max_text }
    ensures { IfOk result (IsLocated (is_instance_name name.now) Verilog bytes.now) }
{
    locate(alloc, Style::Verilog, bytes, &InstanceName { name })
}

/// The place of an instance's cell, of the first instance that has the name.
pub fn instance_cell_place(
    alloc: Global,
    bytes: &[u8],
    name: &[u8],
) -> Result<Option<u32>, AllocError>
    requires { length bytes.now ≤ max_text }
    ensures { IfOk result (IsLocated (is_instance_cell name.now) Verilog bytes.now) }
{
    locate(alloc, Style::Verilog, bytes, &InstanceCell { name })
}

/// The place of a cell in the first instance of it.
pub fn cell_place(alloc: Global, bytes: &[u8], cell: &[u8]) -> Result<Option<u32>, AllocError>
    requires { length bytes.now ≤ max_text }
    ensures { IfOk result (IsLocated (is_cell cell.now) Verilog bytes.now) }
{
    locate(alloc, Style::Verilog, bytes, &CellUse { cell })
}

/// The place of a pin in an instance, where it is connected.
pub fn pin_place(
    alloc: Global,
    bytes: &[u8],
    inst: &[u8],
    pin: &[u8],
) -> Result<Option<u32>, AllocError>
    requires { length bytes.now ≤ max_text }
    ensures { IfOk result (IsLocated (is_pin inst.now pin.now) Verilog bytes.now) }
{
    locate(alloc, Style::Verilog, bytes, &PinUse { inst, pin })
}

/// The place at which a net is first connected to a pin.
pub fn net_place(alloc: Global, bytes: &[u8], net: &[u8]) -> Result<Option<u32>, AllocError>
    requires { length bytes.now ≤ max_text }
    ensures { IfOk result (IsLocated (is_connected_net net.now) Verilog bytes.now) }
{
    locate(alloc, Style::Verilog, bytes, &NetUse { net })
}

/// The place at which a name is declared an input or an output.
pub fn port_place(alloc: Global, bytes: &[u8], name: &[u8]) -> Result<Option<u32>, AllocError>
    requires { length bytes.now ≤ max_text }
    ensures { IfOk result (IsLocated (is_port name.now) Verilog bytes.now) }
{
    locate(alloc, Style::Verilog, bytes, &PortUse { name })
}
