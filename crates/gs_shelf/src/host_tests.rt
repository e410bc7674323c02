//! Real files, in a folder of each test's own.

use crate::calls::{Shelf, ShelfErr};
use crate::host::HostShelf;
use crate::reason::Reason;
use crate::whole::{FetchErr, read_whole};
use std::alloc::{AllocError, Global};
use std::io::ErrorKind;
use std::os::unix::fs::{MetadataExt, PermissionsExt, symlink};
use std::test::Fail;
use std::{fs, process};

/// The name of a folder that no other test has.
fn folder(rt: &HostRuntime, test: &str) -> Result<String, AllocError> {
    format!(in rt.alloc(); "/tmp/gs_shelf_{test}_{}", process::id(rt.process()))
}

/// So many bytes. The length is a parameter, so that no proof writes the list out.
fn filled(alloc: Global, len: usize) -> Result<Vec<u8>, AllocError> {
    vec![in alloc; 7u8; len]
}

#[test]
fn a_real_file_is_written_and_read(rt: HostRuntime) -> Result<(), Fail> {
    let alloc = rt.alloc();
    let mut shelf = HostShelf::new(alloc, &rt);
    let text = filled(alloc, 3_000_000)?;
    let name = folder(&rt, "written")?;
    let name = name.as_str();
    shelf.store(alloc, name, text.as_slice())?;
    let read = read_whole(alloc, &mut shelf, name)?;
    fs::remove_file(&rt, name)?;
    assert!(rt; read.as_slice() == text.as_slice());
    shelf.say(alloc, b"")?;
    assert_eq!(rt; shelf.faults, 0);
    assert_eq!(rt; shelf.reason(), None);
    assert_eq!(rt;
        read_whole(alloc, &mut shelf, name).err(),
        Some(FetchErr::Failed)
    );
    assert_eq!(rt; shelf.reason(), Some(Reason::NotFound));
    assert_eq!(rt;
        read_whole(alloc, &mut shelf, "/tmp").err(),
        Some(FetchErr::Failed)
    );
    assert_eq!(rt; shelf.reason(), Some(Reason::IsFolder));
    shelf.store(alloc, "/dev/null", b"x")?;
    shelf.store(alloc, "/dev/null", b"y")?;
    assert_eq!(rt; shelf.faults, 2);
    Ok(())
}

#[test]
fn a_store_that_fails_tells_its_reason(rt: HostRuntime) -> Result<(), Fail> {
    let alloc = rt.alloc();
    let mut shelf = HostShelf::new(alloc, &rt);
    for (name, reason) in [
        ("/tmp/no/such/folder", Reason::NotFound),
        ("/dev/null/file", Reason::NotFound),
        ("/tmp", Reason::IsFolder),
        ("/dev/full", Reason::NoSpace),
    ] {
        assert_eq!(rt; shelf.store(alloc, name, b"x"), Err(ShelfErr::Failed));
        assert_eq!(rt; shelf.reason(), Some(reason), "{name}");
    }
    assert_eq!(rt; shelf.faults, 4);
    assert_eq!(rt; Reason::of(ErrorKind::PermissionDenied), Reason::Denied);
    assert_eq!(rt; Reason::of(ErrorKind::BrokenPipe), Reason::Other);
    Ok(())
}

#[test]
fn a_store_replaces_what_a_link_leads_to(rt: HostRuntime) -> Result<(), Fail> {
    let alloc = rt.alloc();
    let folder = folder(&rt, "replaced")?;
    fs::create_dir(&rt, folder.as_str())?;
    let old = format!(in alloc; "{folder}/old")?;
    fs::write(&rt, old.as_str(), "one")?;
    fs::set_permissions(&rt, old.as_str(), fs::Permissions::from_mode(0o640))?;
    for (link, leads_to, file) in [
        ("link", "old", "old"),
        ("again", "link", "old"),
        ("to_new", "new", "new"),
    ] {
        let link = format!(in alloc; "{folder}/{link}")?;
        let file = format!(in alloc; "{folder}/{file}")?;
        symlink(&rt, leads_to, link.as_str())?;
        let mut shelf = HostShelf::new(alloc, &rt);
        shelf.store(alloc, link.as_str(), leads_to.as_bytes())?;
        assert!(rt; fs::symlink_metadata(&rt, link.as_str())?.is_symlink());
        let read = fs::read_to_string(&rt, file.as_str())?;
        assert_eq!(rt; read.as_str(), leads_to);
    }
    let mode = fs::metadata(&rt, old.as_str())?.mode();
    assert_eq!(rt; mode % 512, 0o640);
    let mut count = 0u32;
    for entry in fs::read_dir(&rt, folder.as_str())? {
        let _ = entry?;
        count = count.saturating_add(1);
    }
    fs::remove_dir_all(&rt, folder.as_str())?;
    assert_eq!(rt; count, 5);
    Ok(())
}

#[test]
fn no_file_is_stored_that_was_used_before(rt: HostRuntime) -> Result<(), Fail> {
    let alloc = rt.alloc();
    let folder = folder(&rt, "used")?;
    fs::create_dir(&rt, folder.as_str())?;
    let input = format!(in alloc; "{folder}/input")?;
    let input = input.as_str();
    fs::write(&rt, input, "text")?;
    let link = format!(in alloc; "{folder}/link")?;
    symlink(&rt, "input", link.as_str())?;
    let other = format!(in alloc; "{folder}/other")?;
    fs::hard_link(&rt, input, other.as_str())?;
    let mut shelf = HostShelf::new(alloc, &rt);
    assert_eq!(rt; read_whole(alloc, &mut shelf, input)?.len(), 4);
    let output = format!(in alloc; "{folder}/output")?;
    let older = format!(in alloc; "{folder}/older")?;
    fs::write(&rt, output.as_str(), "old")?;
    fs::hard_link(&rt, output.as_str(), older.as_str())?;
    shelf.store(alloc, output.as_str(), b"made")?;
    for name in [
        "input", "./input", "link", "other", "output", "./output", "older",
    ] {
        let name = format!(in alloc; "{folder}/{name}")?;
        assert_eq!(rt;
            shelf.store(alloc, name.as_str(), b"x"),
            Err(ShelfErr::Failed)
        );
        assert_eq!(rt; shelf.reason(), Some(Reason::SameFile), "{name}");
    }
    assert_eq!(rt; shelf.faults, 7);
    assert_eq!(rt;
        read_whole(alloc, &mut shelf, input)?.as_slice(),
        b"text".as_slice()
    );
    assert_eq!(rt;
        read_whole(alloc, &mut shelf, output.as_str())?.as_slice(),
        b"made".as_slice()
    );
    fs::remove_dir_all(&rt, folder.as_str())?;
    Ok(())
}
