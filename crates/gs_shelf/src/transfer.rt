//! Whole writes and reads over writers and readers that take and give as little as they like.
#![tactic(auto)]

ghost use Rattle.std.specs.Prelude.{◌≤◌, IfOk, OnOk, OnErr, length};
ghost use Rattle.std.specs.Io.KnownBytes.{Appends};
ghost use Rattle.gs_shelf.specs.Transfer.{AppendsPart, ConsumesPart, Fills, FillsFrom};

use std::io;
use std::io::{Read, Seek, SeekFrom, Write};

/// Writes all the bytes, in pieces as large as the writer takes, and flushes it. A writer that takes nothing is at fault.
pub(crate) fn write_out<W: Write>(writer: &mut W, bytes: &[u8]) -> io::Result<()>
    ensures ok { OnOk result (Appends (W.contents writer.old) (W.contents writer.new) bytes.now) }
    ensures err { OnErr result (AppendsPart (W.contents writer.old) (W.contents writer.new) bytes.now) }
{
    let mut count = 0;
    while count < bytes.len() {
        let took = writer.write(&bytes[count..])?;
        if took == 0 {
            return Err(io::Error::from(io::ErrorKind::WriteZero));
        }
        count += took;
    }
    writer.flush()
}

/// Fills the room from the reader, and answers how many bytes came: fewer than there is room for only at its end.
pub(crate) fn fill_room<F: Read>(reader: &mut F, room: &mut [u8]) -> io::Result<usize>
    ensures fits { IfOk result (λ n. n ≤ length room.new) }
    ensures bytes { IfOk result (λ n. Fills (F.remaining reader.old) (F.remaining reader.new) n room.new) }
    ensures err { OnErr result (ConsumesPart (F.remaining reader.old) (F.remaining reader.new) room.new) }
{
    let mut count = 0;
    while count < room.len() {
        let came = reader.read(&mut room[count..])?;
        if came == 0 {
            return Ok(count);
        }
        count += came;
    }
    Ok(count)
}

/// Fills the room from byte `from` of the file on, counted from 0.
pub(crate) fn read_from<F: Read + Seek>(
    file: &mut F,
    from: u64,
    room: &mut [u8],
) -> io::Result<usize>
    ensures fits { IfOk result (λ n. n ≤ length room.new) }
    ensures bytes { IfOk result (λ n. FillsFrom F.stream_position F.remaining file.old file.new from n room.new) }
{
    file.seek(SeekFrom::Start(from))?;
    fill_room(file, room)
}
