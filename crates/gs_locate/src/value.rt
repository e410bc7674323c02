//! Values of a library that are judged to be bad.

ghost use Rattle.std.specs.Prelude.{◌≡◌, ◌≤◌, ℕ, Bool, List, length, IfOk};
ghost use Rattle.gs_text.specs.Bytes.{max_text};
ghost use Rattle.gs_text.specs.declared.kinds.Style.TheVariants.{Lib};
ghost use Rattle.gs_locate.specs.Found.{LocatesNth};
ghost use Rattle.gs_locate.specs.Liberty.{is_bad_attribute, nests};

use crate::group::{Nested, calls, is_in_cell, locate_in};
use crate::liberty::begins_item;
use crate::nest::Nest;
use crate::standing::{is_mark, text_at};
use gs_text::Piece;
use std::alloc::{AllocError, Global};

/// Which values are bad, as the caller's profile of a library has it.
pub trait Values {
    ghost is_bad: { Self → List ℕ → List ℕ → Bool };

    /// Whether this value of an attribute of this name is bad. Of an attribute that isn't read none is.
    fn is_bad(&self, name: &[u8], value: &[u8]) -> bool
        ensures { result ≡ is_bad self.now name.now value.now };
}

/// A bad value in a cell.
#[derive(Drop)]
struct BadValue<'a, V> {
    values: &'a V,
    cell: &'a [u8],
}

impl<'a, V: Values> Nested for BadValue<'a, V> {
    ghost use Rattle.gs_locate.specs.Liberty.{is_bad_attribute};

    ghost test = { λ s. is_bad_attribute (V.is_bad s.values.now) s.cell.now };

    fn is_at(&self, bytes: &[u8], pieces: &[Piece], nest: Nest, at: usize) -> bool {
        (nest.depth == 2 || nest.depth == 3 && calls(b"pin", bytes, pieces, nest.part))
            && begins_item(bytes, pieces, at)
            && is_mark(b':', bytes, pieces, at + 1)
            && is_in_cell(self.cell, bytes, pieces, nest)
            && self
                .values
                .is_bad(text_at(bytes, pieces, at), text_at(bytes, pieces, at + 2))
    }
}

/// The place of a simple attribute of a cell itself or of its pins whose value is bad, of the one that has `n` such before it in cells of
/// this name.
///
/// # Errors
///
/// Want of memory.
pub fn bad_value_place<V: Values>(
    alloc: Global,
    bytes: &[u8],
    cell: &[u8],
    values: &V,
    n: usize,
) -> Result<Option<u32>, AllocError>
    requires { length bytes.now ≤ max_text }
    ensures { IfOk result (LocatesNth (nests (is_bad_attribute (V.is_bad values.now) cell.now) bytes.now) n Lib bytes.now) }
{
    locate_in(alloc, bytes, &BadValue { values, cell }, n)
}
