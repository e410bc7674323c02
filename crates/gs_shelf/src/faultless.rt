use crate::calls::{Shelf, ShelfErr};
use crate::lists::{Bytes, FileList, append};
use crate::pieces::copy_piece;
use std::alloc::Global;

/// A shelf over memory that never fails: a missing file reads as an empty one. Memory may run out all the same.
#[derive(Debug, Drop)]
pub struct NeverFails {
    pub files: FileList,
    pub said: Bytes,
}

impl Shelf for NeverFails {
    ghost use Rattle.std.specs.Prelude.{◌≡◌, ◌++◌, ◌-◌, ◌≤◌, [], IfOk, IfErr, OnOk, OnErr, IsOk, IsOkAnd, length, min, Some};
    ghost use Rattle.gs_shelf.specs.Files.{content, Reads, OthersStay};
    ghost use Rattle.gs_shelf.specs.Lists.{lookup};
    ghost use Rattle.gs_shelf.specs.declared.calls.ShelfErr.TheVariants.{Mem};

    ghost tells = { Unit {0} };

    ghost files = { λ s. lookup s.files };

    ghost said = { λ s. s.said };

    ghost faults = { λ _ _ _. 0 };

    fn fetch(
        &mut self,
        _alloc: Global,
        name: &str,
        from: u64,
        room: &mut [u8],
    ) -> Result<u64, ShelfErr>
        ensures count { IsOkAnd result (λ n. n ≡ min (length room.old) (length (content (lookup self.old.files) name.now) - from)) }
        ensures fits { IfOk result (λ n. n ≤ length room.new) }
        ensures bytes { IfOk result (λ n. Reads (content (lookup self.old.files) name.now) from n room.new) }
        ensures stay { self.new.files ≡ self.old.files }
        ensures said { self.new.said ≡ self.old.said }
    {
        match self.files.get(name.as_bytes()) {
            Some(bytes) => Ok(copy_piece(bytes, from, u64::MAX, room)),
            None => Ok(0),
        }
    }

    fn store(&mut self, alloc: Global, name: &str, whole: &[u8]) -> Result<(), ShelfErr>
        ensures ok { OnOk result (lookup self.new.files name.now ≡ Some whole.now) }
        ensures memory { IfErr result (λ e. e ≡ Mem) }
        ensures err { OnErr result (self.new.files ≡ self.old.files) }
        ensures others { OthersStay name.now (lookup self.old.files) (lookup self.new.files) }
        ensures said { self.new.said ≡ self.old.said }
    {
        self.files.put(alloc, name.as_bytes(), whole)?;
        Ok(())
    }

    fn say(&mut self, alloc: Global, bytes: &[u8]) -> Result<(), ShelfErr>
        ensures ok { OnOk result (self.new.said ≡ self.old.said ++ bytes.now) }
        ensures memory { IfErr result (λ e. e ≡ Mem) }
        ensures err { OnErr result (self.new.said ≡ self.old.said) }
        ensures stay { self.new.files ≡ self.old.files }
    {
        append(alloc, &mut self.said, bytes)?;
        Ok(())
    }
}
