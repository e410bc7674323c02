//! What a command stores, made before anything is stored.
ghost use Rattle.std.specs.Prelude.{◌≡◌, ◌∷◌, ◌++◌, [], OnOk};
ghost use Rattle.gs_top.specs.Command.{text};

use crate::status::{Output, Status};
use gs_list::Rows;
use gs_quantity::Mem;
use gs_shelf::Bytes;

/// A text, and what it is to the command.
#[derive(Drop)]
pub(crate) struct Text {
    pub(crate) to: Output,
    pub(crate) bytes: Bytes,
}

pub(crate) type Texts = Rows<Text>;

/// The texts that a command stores, in their order, and the status that it ends with when all are stored.
#[derive(Drop)]
pub(crate) struct Plan {
    pub(crate) texts: Texts,
    pub(crate) success: Status,
}

/// Puts a text last.
pub(crate) fn add_text(texts: &mut Texts, to: Output, bytes: Vec<u8>) -> Result<(), Mem>
    ensures { OnOk result (texts.new ≡ texts.old ++ text to bytes.items ∷ []) }
{
    let bytes = Bytes::from_vec(bytes);
    match texts.push(Text { to, bytes }) {
        Ok(()) => Ok(()),
        Err(_) => Err(Mem),
    }
}
