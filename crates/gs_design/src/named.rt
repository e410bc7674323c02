//! Names by place.
#![tactic(auto)]

ghost use Rattle.std.specs.Prelude.{◌≡◌, ◌<◌, [], length, slice_index_or};

use gs_text::{Name, Names};

// The name at a place.
pub(crate) fn name_at(names: &Names, place: usize) -> &Name
    requires { place < length names.now }
    ensures { result.now ≡ slice_index_or names.now place [] }
{
    &names.as_slice()[place]
}
