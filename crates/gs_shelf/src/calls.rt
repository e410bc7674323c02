ghost use Rattle.std.specs.Prelude.{◌≡◌, ◌≢◌, ℕ, ◌≤◌, [], ◌++◌, List, length, IfOk, OnOk, OnErr};
ghost use Rattle.gs_shelf.specs.Files.{Files, content, Reads, AllStay, OthersStay, HoldsPart, GrewByPart};
ghost use Rattle.gs_shelf.specs.Faults.{Counts, NoneFell, CountsStay, HasCause};
ghost use Rattle.gs_shelf.specs.declared.calls.Op.TheVariants.{Fetch, Store, Say};

use std::alloc::{AllocError, AllocFailed, Global};

/// Why a call of a shelf gave up.
#[derive(Clone, Copy, Debug, PartialEq, Eq)]
pub enum ShelfErr {
    /// The file system or the console refused; the fault was counted.
    Failed,
    /// Memory ran out.
    Mem,
}

impl From<AllocError> for ShelfErr {
    ghost use Rattle.std.specs.Prelude.{◌≡◌};
    ghost use Rattle.gs_shelf.specs.declared.calls.ShelfErr.TheVariants.{Mem};

    ghost from_gives = { λ _ e. e ≡ Mem };

    fn from(_error: AllocError) -> ShelfErr {
        ShelfErr::Mem
    }
}

impl<T: Drop> From<AllocFailed<T>> for ShelfErr {
    ghost use Rattle.std.specs.Prelude.{◌≡◌};
    ghost use Rattle.gs_shelf.specs.declared.calls.ShelfErr.TheVariants.{Mem};

    ghost from_gives = { λ _ e. e ≡ Mem };

    fn from(_error: AllocFailed<T>) -> ShelfErr {
        ShelfErr::Mem
    }
}

/// The three calls of a shelf. Faults are counted for each of them and each name.
#[derive(Clone, Copy, Debug, PartialEq, Eq)]
pub enum Op {
    Fetch,
    Store,
    /// Counted under the empty name.
    Say,
}

/// Files by name and a console, or what stands for them.
///
/// `tells` says whether the contents are known to a contract: they are over memory, and not over the system. `files`
/// is what each name holds, `said` all that was said, `faults` the count of faults of each call and name.
pub trait Shelf {
    ghost tells: { Type 0 };

    ghost files: { Self → Files };

    ghost said: { Self → List ℕ };

    ghost faults: { Self → Counts };

    /// Reads from byte `from` of the file (counted from 0) into the front of `room`, and answers how many bytes came.
    /// It gives 0 at the end. It may give less than there is: the caller asks again.
    fn fetch(
        &mut self,
        alloc: Global,
        name: &str,
        from: u64,
        room: &mut [u8],
    ) -> Result<u64, ShelfErr>
        ensures fits { IfOk result (λ n. n ≤ length room.new) }
        ensures bytes { tells → IfOk result (λ n. Reads (content (files self.old) name.now) from n room.new) }
        ensures stay { AllStay (files self.old) (files self.new) }
        ensures said { said self.new ≡ said self.old }
        ensures later { NoneFell (faults self.old) (faults self.new) }
        ensures still { result ≢ Err ShelfErr.Failed → CountsStay (faults self.old) (faults self.new) }
        ensures cause { HasCause (faults self.old Fetch name.now) (faults self.new Fetch name.now) result };

    /// Makes the file hold `whole`, whether or not there was such a file.
    fn store(&mut self, alloc: Global, name: &str, whole: &[u8]) -> Result<(), ShelfErr>
        ensures ok { tells → OnOk result (files self.new name.now ≡ Some whole.now) }
        ensures err { tells → OnErr result (HoldsPart name.now whole.now (files self.old) (files self.new)) }
        ensures others { OthersStay name.now (files self.old) (files self.new) }
        ensures said { said self.new ≡ said self.old }
        ensures later { NoneFell (faults self.old) (faults self.new) }
        ensures still { result ≢ Err ShelfErr.Failed → CountsStay (faults self.old) (faults self.new) }
        ensures cause { HasCause (faults self.old Store name.now) (faults self.new Store name.now) result };

    /// Appends the bytes to what was said: on a real console, prints them.
    fn say(&mut self, alloc: Global, bytes: &[u8]) -> Result<(), ShelfErr>
        ensures ok { tells → OnOk result (said self.new ≡ said self.old ++ bytes.now) }
        ensures err { tells → OnErr result (GrewByPart bytes.now (said self.old) (said self.new)) }
        ensures memory { result ≡ Err ShelfErr.Mem → said self.new ≡ said self.old }
        ensures stay { AllStay (files self.old) (files self.new) }
        ensures later { NoneFell (faults self.old) (faults self.new) }
        ensures still { result ≢ Err ShelfErr.Failed → CountsStay (faults self.old) (faults self.new) }
        ensures cause { HasCause (faults self.old Say []) (faults self.new Say []) result };
}
