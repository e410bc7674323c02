ghost use Rattle.std.specs.Prelude.{◌≡◌, ℕ, ◌+◌, ◌<◌, ◌∷◌, ◌++◌, [], List, Option, IfOk, OnOk, OnErr, IfErr, length, is_ok, option_map, ◌==◌, IsTrue, true, if◌then◌else◌};
ghost use Rattle.std.specs.List.{list_any, position};
ghost use Rattle.std.specs.Str.{bytes_eq};
ghost use Rattle.gs_shelf.specs.Files.{OthersStay};
ghost use Rattle.gs_shelf.specs.Lists.{has_name, lookup, names_differ};

use crate::calls::Op;
use gs_list::Rows;
use std::alloc::{AllocError, Global};
use std::marker::Model;
use std::mem;

/// Owned bytes.
pub type Bytes = Rows<u8>;

/// A list of numbers.
pub type Numbers = Rows<u64>;

/// A call that failed, with its name.
#[derive(Debug, Drop)]
pub struct Failure {
    pub op: Op,
    pub name: Bytes,
}

/// The failed calls in their order, one entry for each.
pub type Failures = Rows<Failure>;

/// Appends all of `more`, or leaves the bytes as they were.
pub fn append(alloc: Global, bytes: &mut Bytes, more: &[u8]) -> Result<(), AllocError>
    ensures ok { OnOk result (bytes.new ≡ bytes.old ++ more.now) }
    ensures err { OnErr result (bytes.new ≡ bytes.old) }
{
    let mut items = mem::replace(bytes, Bytes::empty(alloc)).into_vec();
    let appended = items.extend_from_slice(more);
    *bytes = Bytes::from_vec(items);
    appended
}

/// Whether the number is in the list. It looks through the list.
pub(crate) fn contains(numbers: &Numbers, number: u64) -> bool
    ensures { result ≡ list_any (λ n. n == number) numbers.now }
{
    numbers.as_slice().iter().any(|n| *n == number)
}

/// Enters one more failed call, or leaves the list as it was.
pub(crate) fn enter(
    alloc: Global,
    failures: &mut Failures,
    op: Op,
    name: &[u8],
) -> Result<(), AllocError>
    ensures ok { OnOk result (failures.new ≡ failures.old ++ record { op = op; name = name.now } ∷ []) }
    ensures err { OnErr result (failures.new ≡ failures.old) }
{
    let name = Bytes::from_vec(Vec::from_slice(alloc, name)?);
    failures.push(Failure { op, name })?;
    Ok(())
}

/// A file's name and its bytes.
#[derive(Debug, Drop)]
pub struct StoredFile {
    pub name: Bytes,
    pub bytes: Bytes,
}

/// Files with distinct names.
#[derive(Debug, Drop)]
pub struct FileList {
    files: Vec<StoredFile>,
}

impl Model for FileList {
    ghost use Rattle.std.specs.Prelude.{◌≡◌, List, true};
    ghost use Rattle.gs_shelf.specs.declared.lists.StoredFile.{StoredFile};
    ghost use Rattle.gs_shelf.specs.Lists.{names_differ};

    ghost Value = { List StoredFile };

    ghost view = { λ f. f.files.items };

    ghost invariant = { λ f. names_differ f.files.items ≡ true };
}

impl FileList {
    /// No files. It takes no memory.
    pub fn new(alloc: Global) -> FileList
        ensures { result ≡ [] }
    {
        FileList {
            files: Vec::new(alloc),
        }
    }

    /// These files, whose names differ. It takes no memory.
    pub fn from_vec(files: Vec<StoredFile>) -> FileList
        requires { names_differ files.items ≡ true }
        ensures { result ≡ files.items }
    {
        FileList { files }
    }

    /// The files as a `Vec`. It takes no memory.
    pub fn into_vec(self) -> Vec<StoredFile>
        ensures files { result.items ≡ self }
        ensures distinct { names_differ result.items ≡ true }
    {
        self.files
    }

    /// The place of the file of this name.
    fn place_of(&self, name: &[u8]) -> Option<usize>
        ensures { result ≡ position (has_name name.now) self.now }
    {
        self.files.iter().position(|f| f.name.as_slice() == name)
    }

    /// The bytes of a file.
    pub fn get(&self, name: &[u8]) -> Option<&[u8]>
        ensures { option_map (λ b. b.now) result ≡ lookup self.now name.now }
    {
        let file = self.files.iter().find(|f| f.name.as_slice() == name)?;
        Some(file.bytes.as_slice())
    }

    /// Makes the file hold these bytes. Where memory runs out, the list stays as it was.
    pub fn put(&mut self, alloc: Global, name: &[u8], whole: &[u8]) -> Result<(), AllocError>
        ensures ok { OnOk result (lookup self.new name.now ≡ Some whole.now) }
        ensures others { OthersStay name.now (lookup self.old) (lookup self.new) }
        ensures err { OnErr result (self.new ≡ self.old) }
    {
        let bytes = Bytes::from_vec(Vec::from_slice(alloc, whole)?);
        match self.place_of(name) {
            Some(place) => {
                self.files[place].bytes = bytes;
                Ok(())
            }
            None => {
                let name = Bytes::from_vec(Vec::from_slice(alloc, name)?);
                self.files.push(StoredFile { name, bytes })?;
                Ok(())
            }
        }
    }
}
