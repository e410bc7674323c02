//! Which files a run has read or written, whatever their names.
#![tactic(auto)]

use std::alloc::{AllocError, Global};
use std::fs::{Metadata, OpenFile};
use std::io;
use std::os::unix::fs::MetadataExt;

/// A plain file of the system: the device on which it lies, and its number there. All its names have the same.
#[derive(Clone, Copy, PartialEq, Eq)]
pub(crate) struct FileId {
    device: u64,
    inode: u64,
}

impl FileId {
    /// That of a plain file. Folders, devices and pipes hold no text that a store could destroy, and have none; nor has a
    /// file of a runtime that doesn't number its files.
    pub(crate) fn of(metadata: &Metadata) -> Option<FileId> {
        let inode = metadata.ino();
        if metadata.is_file() && inode != 0 {
            Some(FileId {
                device: metadata.dev(),
                inode,
            })
        } else {
            None
        }
    }
}

/// The files that a run has read or written, and the names under which it read: a handful, looked up one by one.
#[derive(Drop)]
pub(crate) struct SeenFiles {
    ids: Vec<FileId>,
    fetched: Vec<String>,
}

impl SeenFiles {
    pub(crate) fn new(alloc: Global) -> SeenFiles {
        SeenFiles {
            ids: Vec::new(alloc),
            fetched: Vec::new(alloc),
        }
    }

    /// Whether it is one of these files.
    pub(crate) fn has(&self, metadata: &Metadata) -> bool {
        match FileId::of(metadata) {
            Some(id) => self.ids.contains(&id),
            None => false,
        }
    }

    /// Enters a file.
    pub(crate) fn enter(&mut self, metadata: &Metadata) -> Result<(), AllocError> {
        if let Some(id) = FileId::of(metadata) {
            self.ids.push(id)?;
        }
        Ok(())
    }

    /// How many files were entered.
    pub(crate) fn count(&self) -> usize {
        self.ids.len()
    }

    /// Leaves the first ones alone.
    pub(crate) fn shorten(&mut self, count: usize) {
        self.ids.truncate(count);
    }

    /// Enters a file that was opened under a name to be read. The system is asked once for each name.
    pub(crate) fn enter_fetched<F: OpenFile>(
        &mut self,
        alloc: Global,
        name: &str,
        file: &F,
    ) -> io::Result<()> {
        if self.fetched.iter().any(|seen| seen.as_str() == name) {
            return Ok(());
        }
        let name = String::from_str(alloc, name)?;
        self.enter(&file.metadata()?)?;
        self.fetched.push(name)?;
        Ok(())
    }
}
