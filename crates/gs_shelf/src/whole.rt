ghost use Rattle.std.specs.Prelude.{◌≡◌, ◌≢◌, ◌≤◌, ◌<◌, ◌+◌, ◌*◌, ◌^◌, length, IfOk, IfErr};
ghost use Rattle.gs_shelf.specs.Files.{content, AllStay};
ghost use Rattle.gs_shelf.specs.Faults.{NoneFell, CountsStay};
ghost use Rattle.gs_shelf.specs.Whole.{FetchCause};
ghost use Rattle.gs_shelf.specs.declared.calls.Op.TheVariants.{Fetch};

use crate::calls::{Shelf, ShelfErr};
use std::alloc::{AllocError, Global};

/// The most bytes of a file that is read, `2^28`.
pub const FILE_LIMIT: usize = 1 << 28;

/// How many bytes are asked for in one fetch, 1 MiB.
const PIECE: usize = 1_048_576;

/// Why a file could not be read whole.
#[derive(Clone, Copy, Debug, PartialEq, Eq)]
pub enum FetchErr {
    /// A fetch failed; the fault was counted under the file's name.
    Failed,
    /// Byte number `2^28 + 1` came.
    TooLarge,
    /// Memory ran out.
    Mem,
}

impl From<ShelfErr> for FetchErr {
    ghost use Rattle.gs_shelf.specs.Whole.{fetch_err};
    ghost use Rattle.std.specs.Prelude.{◌≡◌};

    ghost from_gives = { λ e f. f ≡ fetch_err e };

    fn from(error: ShelfErr) -> FetchErr {
        match error {
            ShelfErr::Failed => FetchErr::Failed,
            ShelfErr::Mem => FetchErr::Mem,
        }
    }
}

impl From<AllocError> for FetchErr {
    ghost use Rattle.std.specs.Prelude.{◌≡◌};
    ghost use Rattle.gs_shelf.specs.declared.whole.FetchErr.TheVariants.{Mem};

    ghost from_gives = { λ _ f. f ≡ Mem };

    fn from(_error: AllocError) -> FetchErr {
        FetchErr::Mem
    }
}

/// Zeroed room for so many bytes.
fn new_room(alloc: Global, len: usize) -> Result<Vec<u8>, AllocError>
    ensures { IfOk result (λ v. length v.items ≡ len) }
{
    vec![in alloc; 0u8; len]
}

/// Fetches into the room piece by piece and gathers the bytes.
fn read_pieces<H: Shelf>(
    alloc: Global,
    shelf: &mut H,
    name: &str,
    room: &mut [u8],
) -> Result<Vec<u8>, FetchErr>
    requires { 0 < length room.old }
    ensures ok { H.tells → IfOk result (λ v. v.items ≡ content (H.files shelf.old) name.now) }
    ensures within { IfOk result (λ v. length v.items ≤ FILE_LIMIT) }
    ensures err { IfErr result (FetchCause H.tells FILE_LIMIT (H.faults shelf.old Fetch name.now) (H.faults shelf.new Fetch name.now) (content (H.files shelf.old) name.now)) }
    ensures stay { AllStay (H.files shelf.old) (H.files shelf.new) }
    ensures said { H.said shelf.new ≡ H.said shelf.old }
    ensures later { NoneFell (H.faults shelf.old) (H.faults shelf.new) }
    ensures still { result ≢ Err FetchErr.Failed → CountsStay (H.faults shelf.old) (H.faults shelf.new) }
{
    let mut bytes = Vec::new(alloc);
    loop {
        let left = FILE_LIMIT - bytes.len();
        let most = room.len().min(left + 1);
        let piece = &mut room[..most];
        let count = shelf.fetch(alloc, name, bytes.len() as u64, piece)? as usize;
        if count == 0 {
            return Ok(bytes);
        }
        if count > left {
            return Err(FetchErr::TooLarge);
        }
        bytes.extend_from_slice(&piece[..count])?;
    }
}

/// All bytes of a file, of which there are at most `FILE_LIMIT`. Past byte number `FILE_LIMIT + 1` nothing is read.
pub fn read_whole<H: Shelf>(alloc: Global, shelf: &mut H, name: &str) -> Result<Vec<u8>, FetchErr>
    ensures ok { H.tells → IfOk result (λ v. v.items ≡ content (H.files shelf.old) name.now) }
    ensures within { IfOk result (λ v. length v.items ≤ FILE_LIMIT) }
    ensures err { IfErr result (FetchCause H.tells FILE_LIMIT (H.faults shelf.old Fetch name.now) (H.faults shelf.new Fetch name.now) (content (H.files shelf.old) name.now)) }
    ensures stay { AllStay (H.files shelf.old) (H.files shelf.new) }
    ensures said { H.said shelf.new ≡ H.said shelf.old }
    ensures later { NoneFell (H.faults shelf.old) (H.faults shelf.new) }
    ensures still { result ≢ Err FetchErr.Failed → CountsStay (H.faults shelf.old) (H.faults shelf.new) }
{
    let mut room = new_room(alloc, PIECE)?;
    read_pieces(alloc, shelf, name, &mut room)
}
