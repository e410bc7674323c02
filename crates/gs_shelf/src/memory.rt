ghost use Rattle.std.specs.Prelude.{◌≤◌};

use crate::calls::{Op, Shelf, ShelfErr};
use crate::lists::{Bytes, Failures, FileList, Numbers, append, contains, enter};
use crate::pieces::copy_piece;
use std::alloc::Global;

/// A shelf over memory whose calls fail where a test wants them to.
///
/// All calls are numbered together from 0 by `calls`, which stays at its last value once it stands there. Call number
/// `k` fails where `k` is in `fails`, and a fetch fails where there is no such file. Each failed call is entered in
/// `failed`; without memory for its entry it answers `Mem` and changes nothing but `calls`. A fetch gives at most
/// `most` bytes.
#[derive(Debug, Drop)]
pub struct MemShelf {
    pub files: FileList,
    pub said: Bytes,
    pub calls: u64,
    pub fails: Numbers,
    pub failed: Failures,
    pub most: u64,
    pub ghost gives_some: { 1 ≤ most },
}

impl MemShelf {
    ghost use Rattle.std.specs.Prelude.{◌≡◌, Err};
    ghost use Rattle.gs_shelf.specs.Faults.{next_count, Rose, NoneFell};
    ghost use Rattle.gs_shelf.specs.Lists.{times};
    ghost use Rattle.gs_shelf.specs.Memory.{is_planned, entered};
    ghost use Rattle.gs_shelf.specs.declared.calls.ShelfErr.TheVariants.{Failed};

    /// Gives this call its number, and answers whether a call of that number fails.
    fn begin(&mut self) -> bool
        ensures planned { result ≡ is_planned self.old.fails self.old.calls }
        ensures number { self.new.calls ≡ next_count self.old.calls }
        ensures files { self.new.files ≡ self.old.files }
        ensures said { self.new.said ≡ self.old.said }
        ensures failed { self.new.failed ≡ self.old.failed }
        ensures plan { (self.new.fails ≡ self.old.fails) × (self.new.most ≡ self.old.most) }
    {
        let number = self.calls;
        self.calls = number.saturating_add(1);
        contains(&self.fails, number)
    }

    /// Enters the failed call. Without room for the entry nothing is entered.
    fn refuse(&mut self, alloc: Global, op: Op, name: &[u8]) -> ShelfErr
        ensures entered { self.new.failed ≡ entered {T = Unit {0}} op name.now self.old.failed (Err result) }
        ensures later { NoneFell (times self.old.failed) (times self.new.failed) }
        ensures cause { result ≡ Failed → Rose (times self.old.failed op name.now) (times self.new.failed op name.now) }
        ensures number { self.new.calls ≡ self.old.calls }
        ensures files { self.new.files ≡ self.old.files }
        ensures said { self.new.said ≡ self.old.said }
        ensures plan { (self.new.fails ≡ self.old.fails) × (self.new.most ≡ self.old.most) }
    {
        match enter(alloc, &mut self.failed, op, name) {
            Ok(()) => ShelfErr::Failed,
            Err(_) => ShelfErr::Mem,
        }
    }
}

impl Shelf for MemShelf {
    ghost use Rattle.std.specs.Prelude.{◌≡◌, ◌≢◌, ◌↔◌, ◌||◌, ◌-◌, ◌++◌, [], true, IfOk, IsErr, IsTrue, OnOk, OnErr, length, min, is_none, Some};
    ghost use Rattle.gs_shelf.specs.Files.{content, Reads, AllStay, OthersStay, HoldsPart, GrewByPart};
    ghost use Rattle.gs_shelf.specs.Faults.{next_count, NoneFell, CountsStay, HasCause};
    ghost use Rattle.gs_shelf.specs.Lists.{lookup, times};
    ghost use Rattle.gs_shelf.specs.Memory.{is_planned, entered};
    ghost use Rattle.gs_shelf.specs.declared.calls.Op.TheVariants.{Fetch, Store, Say};
    ghost use Rattle.gs_shelf.specs.declared.calls.ShelfErr.TheVariants.{Failed, Mem};

    ghost tells = { Unit {0} };

    ghost files = { λ s. lookup s.files };

    ghost said = { λ s. s.said };

    ghost faults = { λ s. times s.failed };

    fn fetch(
        &mut self,
        alloc: Global,
        name: &str,
        from: u64,
        room: &mut [u8],
    ) -> Result<u64, ShelfErr>
        ensures fails { IsErr result ↔ IsTrue (is_planned self.old.fails self.old.calls || is_none (lookup self.old.files name.now)) }
        ensures count { IfOk result (λ n. n ≡ min self.old.most (min (length room.old) (length (content (lookup self.old.files) name.now) - from))) }
        ensures fits { IfOk result (λ n. n ≤ length room.new) }
        ensures bytes { IfOk result (λ n. Reads (content (lookup self.old.files) name.now) from n room.new) }
        ensures stay { self.new.files ≡ self.old.files }
        ensures said { self.new.said ≡ self.old.said }
        ensures number { self.new.calls ≡ next_count self.old.calls }
        ensures plan { (self.new.fails ≡ self.old.fails) × (self.new.most ≡ self.old.most) }
        ensures entered { self.new.failed ≡ entered Fetch name.now self.old.failed result }
        ensures later { NoneFell (times self.old.failed) (times self.new.failed) }
        ensures still { result ≢ Err Failed → CountsStay (times self.old.failed) (times self.new.failed) }
        ensures cause { HasCause (times self.old.failed Fetch name.now) (times self.new.failed Fetch name.now) result }
    {
        let is_planned = self.begin();
        let Some(bytes) = self.files.get(name.as_bytes()) else {
            return Err(self.refuse(alloc, Op::Fetch, name.as_bytes()));
        };
        if is_planned {
            return Err(self.refuse(alloc, Op::Fetch, name.as_bytes()));
        }
        Ok(copy_piece(bytes, from, self.most, room))
    }

    fn store(&mut self, alloc: Global, name: &str, whole: &[u8]) -> Result<(), ShelfErr>
        ensures failed { result ≡ Err Failed → is_planned self.old.fails self.old.calls ≡ true }
        ensures fails { is_planned self.old.fails self.old.calls ≡ true → IsErr result }
        ensures ok { OnOk result (lookup self.new.files name.now ≡ Some whole.now) }
        ensures err { OnErr result (self.new.files ≡ self.old.files) }
        ensures others { OthersStay name.now (lookup self.old.files) (lookup self.new.files) }
        ensures said { self.new.said ≡ self.old.said }
        ensures number { self.new.calls ≡ next_count self.old.calls }
        ensures plan { (self.new.fails ≡ self.old.fails) × (self.new.most ≡ self.old.most) }
        ensures entered { self.new.failed ≡ entered Store name.now self.old.failed result }
        ensures later { NoneFell (times self.old.failed) (times self.new.failed) }
        ensures still { result ≢ Err Failed → CountsStay (times self.old.failed) (times self.new.failed) }
        ensures cause { HasCause (times self.old.failed Store name.now) (times self.new.failed Store name.now) result }
    {
        if self.begin() {
            return Err(self.refuse(alloc, Op::Store, name.as_bytes()));
        }
        self.files.put(alloc, name.as_bytes(), whole)?;
        Ok(())
    }

    fn say(&mut self, alloc: Global, bytes: &[u8]) -> Result<(), ShelfErr>
        ensures failed { result ≡ Err Failed → is_planned self.old.fails self.old.calls ≡ true }
        ensures fails { is_planned self.old.fails self.old.calls ≡ true → IsErr result }
        ensures ok { OnOk result (self.new.said ≡ self.old.said ++ bytes.now) }
        ensures err { OnErr result (self.new.said ≡ self.old.said) }
        ensures stay { self.new.files ≡ self.old.files }
        ensures number { self.new.calls ≡ next_count self.old.calls }
        ensures plan { (self.new.fails ≡ self.old.fails) × (self.new.most ≡ self.old.most) }
        ensures entered { self.new.failed ≡ entered Say [] self.old.failed result }
        ensures later { NoneFell (times self.old.failed) (times self.new.failed) }
        ensures still { result ≢ Err Failed → CountsStay (times self.old.failed) (times self.new.failed) }
        ensures cause { HasCause (times self.old.failed Say []) (times self.new.failed Say []) result }
    {
        if self.begin() {
            return Err(self.refuse(alloc, Op::Say, b""));
        }
        append(alloc, &mut self.said, bytes)?;
        Ok(())
    }
}
