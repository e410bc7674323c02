ghost use Rattle.std.specs.Prelude.{◌≤◌};

use crate::calls::{Op, Shelf, ShelfErr};
use crate::faultless::NeverFails;
use crate::lists::{Bytes, Failures, FileList, Numbers};
use crate::memory::MemShelf;
use crate::transfer::{fill_room, write_out};
use crate::whole::{FetchErr, read_whole};
use std::alloc::{AllocError, Global};
use std::io;
use std::io::{Read, Write};
use std::test::Fail;

/// A shelf with the file `a` of five bytes.
fn one_file(alloc: Global, fails: &[u64], most: u64) -> Result<MemShelf, AllocError>
    requires { 1 ≤ most }
{
    let mut files = FileList::new(alloc);
    files.put(alloc, b"a", b"hello")?;
    Ok(MemShelf {
        files,
        said: Bytes::empty(alloc),
        calls: 0,
        fails: Numbers::from_vec(Vec::from_slice(alloc, fails)?),
        failed: Failures::empty(alloc),
        most,
    })
}

#[test]
fn each_call_fails_in_turn(rt: HostRuntime) -> Result<(), Fail> {
    let alloc = rt.alloc();
    for k in 0..4 {
        let mut shelf = one_file(alloc, &[k], 9)?;
        let mut room = [0u8; 3];
        let came = shelf.fetch(alloc, "a", 3, &mut room);
        assert_eq!(rt; came == Ok(2), k != 0, "fetch, failing {k}");
        let stored = shelf.store(alloc, "b", b"new");
        assert_eq!(rt; stored.is_ok(), k != 1, "store, failing {k}");
        let said = shelf.say(alloc, b"done\n");
        assert_eq!(rt; said.is_ok(), k != 2, "say, failing {k}");
        assert_eq!(rt;
            shelf.files.get(b"b").is_some(),
            k != 1,
            "the file, failing {k}"
        );
        assert_eq!(rt;
            shelf.said.as_slice() == b"done\n".as_slice(),
            k != 2,
            "the line, failing {k}"
        );
        assert_eq!(rt; shelf.calls, 3);
        assert_eq!(rt;
            shelf.failed.into_vec().is_empty(),
            k == 3,
            "the entry, failing {k}"
        );
    }
    Ok(())
}

#[test]
fn a_missing_file_is_a_fault_and_entered(rt: HostRuntime) -> Result<(), Fail> {
    let alloc = rt.alloc();
    let mut shelf = one_file(alloc, &[], 1)?;
    assert_eq!(rt;
        shelf.fetch(alloc, "b", 0, &mut [0u8; 3]),
        Err(ShelfErr::Failed)
    );
    let failed = shelf.failed.into_vec();
    assert_eq!(rt; failed.len(), 1);
    assert_eq!(rt; failed[0].op, Op::Fetch);
    assert!(rt; failed[0].name.as_slice() == b"b".as_slice());
    Ok(())
}

#[test]
fn a_file_is_read_whole_byte_by_byte(rt: HostRuntime) -> Result<(), Fail> {
    let alloc = rt.alloc();
    for k in 0..7 {
        let mut shelf = one_file(alloc, &[k], 1)?;
        match read_whole(alloc, &mut shelf, "a") {
            Ok(bytes) => {
                assert_eq!(rt; k, 6);
                assert_eq!(rt; bytes.as_slice(), b"hello".as_slice());
            }
            Err(error) => {
                assert!(rt; k < 6);
                assert_eq!(rt; error, FetchErr::Failed);
            }
        }
    }
    Ok(())
}

#[test]
fn nothing_fails_without_faults(rt: HostRuntime) -> Result<(), Fail> {
    let alloc = rt.alloc();
    let mut shelf = NeverFails {
        files: FileList::new(alloc),
        said: Bytes::empty(alloc),
    };
    assert_eq!(rt; read_whole(alloc, &mut shelf, "a")?.len(), 0);
    shelf.store(alloc, "a", b"one")?;
    shelf.store(alloc, "b", b"two")?;
    shelf.store(alloc, "a", b"three")?;
    shelf.say(alloc, b"x")?;
    shelf.say(alloc, b"y")?;
    assert_eq!(rt;
        read_whole(alloc, &mut shelf, "a")?.as_slice(),
        b"three".as_slice()
    );
    assert_eq!(rt;
        read_whole(alloc, &mut shelf, "b")?.as_slice(),
        b"two".as_slice()
    );
    assert_eq!(rt; shelf.said.as_slice(), b"xy".as_slice());
    assert_eq!(rt; shelf.files.into_vec().len(), 2);
    Ok(())
}

/// A writer that takes one byte at a time, and none once it holds `most`.
#[derive(Drop)]
struct SlowWriter {
    bytes: Vec<u8>,
    most: usize,
    flushed: bool,
}

impl Write for SlowWriter {
    fn write(&mut self, buf: &[u8]) -> io::Result<usize> {
        match buf.first() {
            Some(byte) if self.bytes.len() < self.most => {
                self.bytes.push(*byte)?;
                Ok(1)
            }
            _ => Ok(0),
        }
    }

    fn flush(&mut self) -> io::Result<()> {
        self.flushed = true;
        Ok(())
    }
}

#[test]
fn a_slow_writer_gets_every_byte_once(rt: HostRuntime) -> Result<(), Fail> {
    for most in 4..7 {
        let mut writer = SlowWriter {
            bytes: Vec::new(rt.alloc()),
            most,
            flushed: false,
        };
        let written = write_out(&mut writer, b"hello");
        assert_eq!(rt; written.is_ok(), most != 4, "of at most {most} bytes");
        assert_eq!(rt; writer.flushed, most != 4, "of at most {most} bytes");
        let text = if most == 4 {
            b"hell".as_slice()
        } else {
            b"hello".as_slice()
        };
        assert_eq!(rt; writer.bytes.as_slice(), text, "of at most {most} bytes");
    }
    Ok(())
}

/// A reader that gives one byte at a time, and an error in place of byte number `cut`.
#[derive(Drop)]
struct SlowReader<'a> {
    text: &'a [u8],
    at: usize,
    cut: usize,
}

impl Read for SlowReader<'_> {
    fn read(&mut self, buf: &mut [u8]) -> io::Result<usize> {
        if self.at == self.cut {
            return Err(io::Error::from(io::ErrorKind::BrokenPipe));
        }
        match (self.text.get(self.at), buf.first_mut()) {
            (Some(byte), Some(place)) => {
                *place = *byte;
                self.at = self.at.saturating_add(1);
                Ok(1)
            }
            _ => Ok(0),
        }
    }
}

#[test]
fn a_slow_reader_fills_the_room(rt: HostRuntime) {
    for (len, cut, came) in [(3, 9, 3), (5, 9, 5), (8, 9, 5), (3, 3, 3), (4, 3, 9)] {
        let mut reader = SlowReader {
            text: b"hello",
            at: 0,
            cut,
        };
        let mut room = [b'.'; 8];
        let count = fill_room(&mut reader, &mut room[..len]).unwrap_or(9);
        assert_eq!(rt; count, came, "room for {len}, cut at {cut}");
        let text = if count == 9 {
            b"hel.....".as_slice()
        } else {
            b"hello".as_slice()
        };
        let text = text.get(..count).unwrap_or(text);
        assert!(rt; room.starts_with(text), "room for {len}, cut at {cut}");
    }
}
