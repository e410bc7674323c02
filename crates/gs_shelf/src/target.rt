//! Which file a name stands for when it is written.
#![tactic(auto)]

use crate::seen::FileId;
use std::alloc::Global;
use std::fs::Metadata;
use std::io::ErrorKind;
use std::path::PathBuf;
use std::rt::Files;
use std::{fs, io};

/// The most symbolic links that are followed one after another, as many as Linux follows.
const MOST_LINKS: usize = 40;

/// A path without a symbolic link at its end, and what the system says of the plain file there, if there is one.
#[derive(Drop)]
pub(crate) struct Target {
    pub(crate) path: PathBuf,
    pub(crate) old: Option<Metadata>,
}

/// Where the text of a store goes.
pub(crate) enum Place {
    /// Into the file as it lies: a folder (which refuses it), a device, a pipe, or the file to which standard output goes.
    AsItLies,
    /// To this path, where a plain file is replaced or made.
    Anew(Target),
}

/// What the system says of a file, or none where there is none.
pub(crate) fn metadata_of<R: Files>(rt: &R, name: &str) -> io::Result<Option<Metadata>> {
    match fs::metadata(rt, name) {
        Ok(metadata) => Ok(Some(metadata)),
        Err(error) if error.kind() == ErrorKind::NotFound => Ok(None),
        Err(error) => Err(error),
    }
}

/// What a symbolic link says, or none where there is no link.
fn link_at<R: Files>(rt: &R, alloc: Global, path: &str) -> io::Result<Option<PathBuf>> {
    match fs::symlink_metadata(rt, path) {
        Ok(metadata) if metadata.is_symlink() => Ok(Some(rt.read_link(alloc, path)?)),
        Ok(_) => Ok(None),
        Err(error) if error.kind() == ErrorKind::NotFound => Ok(None),
        Err(error) => Err(error),
    }
}

/// The path to which the symbolic links at the end of a name lead, whether or not there is a file.
fn follow_links<R: Files>(rt: &R, alloc: Global, name: &str) -> io::Result<PathBuf> {
    let mut path = PathBuf::from_str(alloc, name)?;
    for _ in 0..MOST_LINKS {
        match link_at(rt, alloc, path.as_str())? {
            Some(link) => {
                path.pop();
                path.push(link.as_str())?;
            }
            None => return Ok(path),
        }
    }
    Err(io::Error::from(ErrorKind::FilesystemLoop))
}

/// Whether a name stands for this very file.
fn leads_to<R: Files>(rt: &R, name: &str, file: &Metadata) -> bool {
    match fs::metadata(rt, name) {
        Ok(other) => FileId::of(&other) == FileId::of(file),
        Err(_) => false,
    }
}

/// The place of a name, where the system says this of the file.
pub(crate) fn place_of<R: Files>(
    rt: &R,
    alloc: Global,
    name: &str,
    old: Option<Metadata>,
) -> io::Result<Place> {
    let Some(file) = old else {
        let path = follow_links(rt, alloc, name)?;
        return Ok(Place::Anew(Target { path, old: None }));
    };
    if !file.is_file() || leads_to(rt, "/dev/stdout", &file) {
        return Ok(Place::AsItLies);
    }
    let path = follow_links(rt, alloc, name)?;
    if !leads_to(rt, path.as_str(), &file) {
        return Ok(Place::AsItLies);
    }
    let old = Some(file);
    Ok(Place::Anew(Target { path, old }))
}
