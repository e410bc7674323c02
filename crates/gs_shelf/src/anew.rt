//! Files that are written anew beside those that they replace.
#![tactic(auto)]

ghost use Rattle.std.specs.Prelude.{OnOk};
ghost use Rattle.std.specs.Io.KnownBytes.{Appends};
ghost use Rattle.gs_shelf.specs.Transfer.{WritesFile};

use crate::seen::SeenFiles;
use crate::target::Target;
use crate::transfer::write_out;
use std::alloc::{AllocError, Global};
use std::fs::{Metadata, OpenFile, OpenOptions};
use std::io::{ErrorKind, Write};
use std::os::unix::fs::{MetadataExt, OpenOptionsExt, PermissionsExt};
use std::path::PathBuf;
use std::rt::Files;
use std::{fs, io};

/// The most names that are tried for a new file. Runs that were killed leave theirs behind.
const MOST_NAMES: u32 = 10_000;

/// A new file in the folder of another, open for writing.
#[derive(Drop)]
struct Beside<F: Drop> {
    file: F,
    path: PathBuf,
}

/// The path of try number so and so.
fn path_beside(alloc: Global, path: &PathBuf, number: u32) -> Result<PathBuf, AllocError> {
    let name = format!(in alloc; ".gate-sizer-{number}.new")?;
    let mut beside = path.clone()?;
    beside.set_file_name(name.as_str())?;
    Ok(beside)
}

/// Opens a file that didn't exist. At no moment may more users read it than the one that it replaces.
fn open_new<R: Files>(rt: &R, path: &PathBuf, old: Option<&Metadata>) -> io::Result<R::File> {
    let mode = old.map_or(0o666, |old| old.permissions().mode() & 0o777);
    OpenOptions::new()
        .write(true)
        .create_new(true)
        .mode(mode)
        .open(rt, path.as_str())
}

/// Makes a file beside a path, under the first name that isn't taken.
fn make_beside<R: Files>(rt: &R, alloc: Global, target: &Target) -> io::Result<Beside<R::File>> {
    for number in 0..MOST_NAMES {
        let path = path_beside(alloc, &target.path, number)?;
        match open_new(rt, &path, target.old.as_ref()) {
            Ok(file) => return Ok(Beside { file, path }),
            Err(error) if error.kind() == ErrorKind::AlreadyExists => {}
            Err(error) => return Err(error),
        }
    }
    Err(io::Error::from(ErrorKind::AlreadyExists))
}

/// Gives a new file the owner, the group and the permissions of an old one, as far as the system lets the user.
fn keep_rights<R: Files>(rt: &R, beside: &Beside<R::File>, old: &Metadata) {
    let path = beside.path.as_str();
    let _ = rt.chown(path, None, Some(old.gid()));
    let _ = rt.chown(path, Some(old.uid()), None);
    let _ = beside.file.set_permissions(old.permissions());
}

/// Writes the text to a new file, waits until the system has stored it, and enters the file among those of the run.
fn fill<F: Write + OpenFile>(file: &mut F, seen: &mut SeenFiles, whole: &[u8]) -> io::Result<()>
    ensures { OnOk result (Appends (F.contents file.old) (F.contents file.new) whole.now) }
{
    write_out(file, whole)?;
    file.sync_all()?;
    seen.enter(&file.metadata()?)?;
    Ok(())
}

/// Fills the new file and then gives it the target's name, in one step of the system. The old file is entered too: it may have other names.
fn fill_and_move<R: Files>(
    rt: &R,
    seen: &mut SeenFiles,
    beside: &mut Beside<R::File>,
    target: &Target,
    whole: &[u8],
) -> io::Result<()>
    ensures { OnOk result (Appends (R.File.contents beside.old.file) (R.File.contents beside.new.file) whole.now) }
{
    if let Some(old) = &target.old {
        keep_rights(rt, beside, old);
        seen.enter(old)?;
    }
    fill(&mut beside.file, seen, whole)?;
    fs::rename(rt, beside.path.as_str(), target.path.as_str())
}

/// Asks the system whether the user may write to a file, and changes nothing.
fn may_write<R: Files>(rt: &R, path: &PathBuf) -> io::Result<()> {
    OpenOptions::new().write(true).open(rt, path.as_str())?;
    Ok(())
}

/// Puts a file with the text in the target's place. Wherever this ends or is cut off, the target is what it was or holds the whole text;
/// after an error the new file is removed.
pub(crate) fn write_anew<R: Files>(
    rt: &R,
    alloc: Global,
    seen: &mut SeenFiles,
    target: &Target,
    whole: &[u8],
) -> io::Result<()>
    ensures { OnOk result (WritesFile R.File.contents whole.now) }
{
    if target.old.is_some() {
        may_write(rt, &target.path)?;
    }
    let mut beside = make_beside(rt, alloc, target)?;
    let count = seen.count();
    let moved = fill_and_move(rt, seen, &mut beside, target, whole);
    if moved.is_err() {
        seen.shorten(count);
        let _ = fs::remove_file(rt, beside.path.as_str());
    }
    moved
}
