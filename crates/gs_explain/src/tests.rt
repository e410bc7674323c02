//! What is printed of files that fail or are no texts, of words that make no job, and of places in long lines.

use crate::excerpt::located;
use crate::samples::{CHAIN_ROW, check_words, files_of, of_netlist, prints_so};
use crate::statuses::explain;
use gs_shelf::{Bytes, Failures, MemShelf, Numbers, Reason};
use gs_top::run;
use std::alloc::{AllocError, Global};
use std::test::Fail;
use std::thread::Threads;

/// Whether this is printed where the library is these bytes.
fn of_bytes<R: Threads + Sync>(
    rt: &R,
    alloc: Global,
    library: &[u8],
    printed: &str,
) -> Result<bool, Fail> {
    let mut files = files_of(alloc, CHAIN_ROW)?;
    files.put(alloc, b"n.lib", library)?;
    prints_so(rt, alloc, files, printed.as_bytes())
}

#[test]
fn compressed_files(rt: HostRuntime) -> Result<(), Fail> {
    let alloc = rt.alloc();
    let gzip = of_bytes(
        &rt,
        alloc,
        &[31, 139, 8, 0],
        "n.lib: the file is compressed (gzip); unpack it first\n",
    )?;
    assert!(rt; gzip);
    let zip = of_bytes(
        &rt,
        alloc,
        b"PK\x03\x04..",
        "n.lib: the file is compressed (zip); unpack it first\n",
    )?;
    assert!(rt; zip);
    let bzip2 = of_bytes(
        &rt,
        alloc,
        b"BZh91AY&SY..",
        "n.lib: the file is compressed (bzip2); unpack it first\n",
    )?;
    assert!(rt; bzip2);
    let xz = of_bytes(
        &rt,
        alloc,
        &[253, 55, 122, 88, 90, 0, 0],
        "n.lib: the file is compressed (xz); unpack it first\n",
    )?;
    assert!(rt; xz);
    let zstd = of_bytes(
        &rt,
        alloc,
        &[40, 181, 47, 253, 4],
        "n.lib: the file is compressed (zstd); unpack it first\n",
    )?;
    assert!(rt; zstd);
    let name = of_bytes(
        &rt,
        alloc,
        b"PK (l) {} x",
        "n.lib:1:11: unexpected 'x'\nPK (l) {} x\n          ^\n",
    )?;
    assert!(rt; name);
    Ok(())
}

/// What is printed of a run on the chain whose call number `k` fails, with this reason.
fn failing<R: Threads + Sync>(
    rt: &R,
    alloc: Global,
    k: u64,
    reason: Option<Reason>,
) -> Result<Vec<u8>, Fail> {
    let mut shelf = MemShelf {
        files: files_of(alloc, CHAIN_ROW)?,
        said: Bytes::empty(alloc),
        calls: 0,
        fails: Numbers::from_vec(Vec::from_slice(alloc, &[k])?),
        failed: Failures::empty(alloc),
        most: 100_000,
    };
    let words = check_words(alloc)?;
    let status = run(rt, alloc, &words, &mut shelf);
    Ok(explain(alloc, &words, &status, reason, &mut shelf)?)
}

#[test]
fn files_that_fail(rt: HostRuntime) -> Result<(), Fail> {
    let alloc = rt.alloc();
    let library = failing(&rt, alloc, 0, Some(Reason::NotFound))?;
    assert!(rt;
        library.as_slice()
            == b"n.lib: the file cannot be read: there is no such file or folder\n".as_slice()
    );
    let netlist = failing(&rt, alloc, 2, None)?;
    assert!(rt; netlist.as_slice() == b"n.v: the file cannot be read\n".as_slice());
    let report = failing(&rt, alloc, 10, Some(Reason::NoSpace))?;
    assert!(rt;
        report.as_slice() == b"n.rpt: the file cannot be written: no space is left\n".as_slice()
    );
    let console = failing(&rt, alloc, 11, None)?;
    assert!(rt; console.as_slice() == b"standard output: the file cannot be written\n".as_slice());
    let whole = failing(&rt, alloc, 12, Some(Reason::Other))?;
    assert!(rt; whole.is_empty());
    Ok(())
}

/// A refused netlist whose second fetch fails.
fn lost<R: Threads + Sync>(rt: &R, alloc: Global) -> Result<Vec<u8>, Fail> {
    let row = of_netlist("module c", "");
    let mut shelf = MemShelf {
        files: files_of(alloc, row)?,
        said: Bytes::empty(alloc),
        calls: 0,
        fails: Numbers::from_vec(Vec::from_slice(alloc, &[5])?),
        failed: Failures::empty(alloc),
        most: 100_000,
    };
    let words = check_words(alloc)?;
    let status = run(rt, alloc, &words, &mut shelf);
    Ok(explain(alloc, &words, &status, None, &mut shelf)?)
}

#[test]
fn a_text_that_is_lost(rt: HostRuntime) -> Result<(), Fail> {
    let text = lost(&rt, rt.alloc())?;
    assert!(rt; text.as_slice() == b"n.v: the text ends too early\n".as_slice());
    Ok(())
}

/// So many bytes of one letter, with these before them.
fn long_line(alloc: Global, front: &[u8], count: usize) -> Result<Vec<u8>, AllocError> {
    let mut line = Vec::from_slice(alloc, front)?;
    for _ in 0..count {
        line.push(b'a')?;
    }
    Ok(line)
}

#[test]
fn a_long_line_is_cut(rt: HostRuntime) -> Result<(), Fail> {
    let alloc = rt.alloc();
    let bytes = long_line(alloc, b"x\n", 200)?;
    assert!(rt; bytes.len() == 202);
    let text = located(alloc, b"f", bytes.as_slice(), 102, b"here")?;
    let mut wanted = long_line(alloc, b"f:2:101: here\n", 120)?;
    wanted.extend_from_slice(b"\n                                                            ^\n")?;
    assert!(rt; text.as_slice() == wanted.as_slice());
    Ok(())
}
