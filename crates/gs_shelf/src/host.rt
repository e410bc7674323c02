ghost use Rattle.std.specs.Prelude.{◌≡◌, ◌≢◌, ◌↔◌, ℕ, ◌≤◌, ◌<◌, nat_lt, is_some, IsSome, [], List, Option, None, Err, IfOk, OnOk, length};
ghost use Rattle.gs_shelf.specs.Faults.{next_count};
ghost use Rattle.gs_shelf.specs.Transfer.{ReadsFile, WritesFile};

use crate::anew::write_anew;
use crate::calls::{Shelf, ShelfErr};
use crate::reason::{Reason, Refusal};
use crate::seen::SeenFiles;
use crate::target::{Place, metadata_of, place_of};
use crate::transfer::{read_from, write_out};
use std::alloc::Global;
use std::fs::{OpenFile, OpenOptions};
use std::rt::Files;
use std::{fs, io};

/// The trusted edge: real files and standard output.
///
/// No contract can say what a real file holds, so this shelf tells no content. Its one number `faults` counts every
/// error of every call and name, and stays at its last value once it stands there.
///
/// A store writes a new file, `.gate-sizer-N.new`, in the folder of the file that the name stands for, waits until the system has stored it,
/// and renames it: at each moment the file is what it was or holds the whole text. A symbolic link stays and what it leads to is
/// replaced; permissions are kept, and owner and group where the system lets the user keep them. What is no plain file, as a
/// device or a pipe, and the file to which standard output goes are written in place, at their end.
///
/// A plain file that was fetched or stored before isn't stored again, whatever its name: that is a fault, `Reason::SameFile`.
pub struct HostShelf<'a, R: Files + Print> {
    pub rt: &'a R,
    pub faults: u64,
    last: Option<Reason>,
    seen: SeenFiles,
    ghost told: { is_some last ≡ nat_lt 0 faults },
}

impl<'a, R: Files + Print> HostShelf<'a, R> {
    /// A shelf that has met no fault yet.
    pub fn new(alloc: Global, rt: &'a R) -> HostShelf<'a, R>
        ensures { result.faults ≡ 0 }
    {
        HostShelf {
            rt,
            faults: 0,
            last: None,
            seen: SeenFiles::new(alloc),
        }
    }

    /// The reason of the last fault, where there was one.
    pub fn reason(&self) -> Option<Reason>
        ensures { IsSome result ↔ (0 < self.now.faults) }
    {
        self.last
    }

    /// Counts one fault.
    fn failed(&mut self, reason: Reason) -> ShelfErr
        ensures failed { result ≡ ShelfErr.Failed }
        ensures counted { self.new.faults ≡ next_count self.old.faults }
        ensures later { self.old.faults ≤ self.new.faults }
    {
        self.faults = self.faults.saturating_add(1);
        self.last = Some(reason);
        ShelfErr::Failed
    }

    /// Counts a fault; want of memory is none.
    fn refused(&mut self, refusal: Refusal) -> ShelfErr
        ensures counted { result ≡ ShelfErr.Failed → self.new.faults ≡ next_count self.old.faults }
        ensures still { result ≢ ShelfErr.Failed → self.new.faults ≡ self.old.faults }
        ensures later { self.old.faults ≤ self.new.faults }
    {
        match refusal {
            Refusal::Mem => ShelfErr::Mem,
            Refusal::Fault(reason) => self.failed(reason),
        }
    }
}

impl<R: Files + Print> Drop for HostShelf<'_, R> {
    fn drop(self) {
        let HostShelf {
            rt: _,
            faults: _,
            last: _,
            seen: _,
        } = self;
    }
}

fn read_piece<R: Files>(
    rt: &R,
    alloc: Global,
    seen: &mut SeenFiles,
    name: &str,
    from: u64,
    room: &mut [u8],
) -> Result<usize, Refusal>
    ensures fits { IfOk result (λ n. n ≤ length room.new) }
    ensures bytes { IfOk result (λ n. ReadsFile R.File.stream_position R.File.remaining from n room.new) }
{
    let mut file = fs::open(rt, name)?;
    seen.enter_fetched(alloc, name, &file)?;
    Ok(read_from(&mut file, from, room)?)
}

/// Writes the text at the end of a file as it lies.
fn write_as_it_lies<R: Files>(
    rt: &R,
    seen: &mut SeenFiles,
    name: &str,
    whole: &[u8],
) -> io::Result<()>
    ensures { OnOk result (WritesFile R.File.contents whole.now) }
{
    let mut file = OpenOptions::new().append(true).open(rt, name)?;
    seen.enter(&file.metadata()?)?;
    write_out(&mut file, whole)
}

fn write_file<R: Files>(
    rt: &R,
    alloc: Global,
    seen: &mut SeenFiles,
    name: &str,
    whole: &[u8],
) -> Result<(), Refusal>
    ensures { OnOk result (WritesFile R.File.contents whole.now) }
{
    let old = metadata_of(rt, name)?;
    if old.as_ref().is_some_and(|old| seen.has(old)) {
        return Err(Refusal::Fault(Reason::SameFile));
    }
    match place_of(rt, alloc, name, old)? {
        Place::AsItLies => Ok(write_as_it_lies(rt, seen, name, whole)?),
        Place::Anew(target) => Ok(write_anew(rt, alloc, seen, &target, whole)?),
    }
}

impl<R: Files + Print> Shelf for HostShelf<'_, R> {
    ghost use Rattle.std.specs.Prelude.{◌≡◌, ◌≢◌, ◌≤◌, [], IfOk, IfErr, OnOk, OnErr, length};
    ghost use Rattle.gs_shelf.specs.declared.calls.ShelfErr.TheVariants.{Failed};

    ghost tells = { ⊥ };

    ghost files = { λ _ _. None };

    ghost said = { λ _. [] };

    ghost faults = { λ s _ _. s.faults };

    fn fetch(
        &mut self,
        alloc: Global,
        name: &str,
        from: u64,
        room: &mut [u8],
    ) -> Result<u64, ShelfErr>
        ensures fits { IfOk result (λ n. n ≤ length room.new) }
        ensures read { IfOk result (λ n. ReadsFile R.File.stream_position R.File.remaining from n room.new) }
        ensures still { result ≢ Err Failed → self.new.faults ≡ self.old.faults }
        ensures counted { result ≡ Err Failed → self.new.faults ≡ next_count self.old.faults }
        ensures later { self.old.faults ≤ self.new.faults }
    {
        match read_piece(self.rt, alloc, &mut self.seen, name, from, room) {
            Ok(count) => Ok(count as u64),
            Err(refusal) => Err(self.refused(refusal)),
        }
    }

    fn store(&mut self, alloc: Global, name: &str, whole: &[u8]) -> Result<(), ShelfErr>
        ensures written { OnOk result (WritesFile R.File.contents whole.now) }
        ensures still { result ≢ Err Failed → self.new.faults ≡ self.old.faults }
        ensures counted { result ≡ Err Failed → self.new.faults ≡ next_count self.old.faults }
        ensures later { self.old.faults ≤ self.new.faults }
    {
        match write_file(self.rt, alloc, &mut self.seen, name, whole) {
            Ok(()) => Ok(()),
            Err(refusal) => Err(self.refused(refusal)),
        }
    }

    fn say(&mut self, _alloc: Global, bytes: &[u8]) -> Result<(), ShelfErr>
        ensures failed { IfErr result (λ e. e ≡ Failed) }
        ensures still { OnOk result (self.new.faults ≡ self.old.faults) }
        ensures counted { OnErr result (self.new.faults ≡ next_count self.old.faults) }
        ensures later { self.old.faults ≤ self.new.faults }
    {
        match write_out(&mut io::writer(self.rt), bytes) {
            Ok(()) => Ok(()),
            Err(error) => Err(self.failed(Reason::of(error.kind()))),
        }
    }
}
