//! What begins at a byte of a SPEF text, after IEEE 1481-1999.
#![tactic(auto)]

ghost use Rattle.std.specs.Prelude.{◌≡◌, ◌+◌, length};
ghost use Rattle.gs_text.specs.Front.{FitsIn};
ghost use Rattle.gs_text.specs.Spef.{spef_front};

use crate::kinds::Kind;
use crate::runs::{Blank, line_front, until};
use crate::scan::{Front, byte_at, is_white, opens_line_comment};

/// What begins with `byte` before `rest` in a SPEF text.
pub fn begins_spef(byte: u8, rest: &[u8]) -> Front
    ensures value { result ≡ spef_front byte rest.now }
    ensures fits { FitsIn (length rest.now + 1) result }
{
    if is_white(byte) {
        Front::Gap
    } else if opens_line_comment(byte, byte_at(rest, 0)) {
        line_front(rest)
    } else {
        Front::Found(Kind::Word, until::<Blank>(rest) + 1)
    }
}
