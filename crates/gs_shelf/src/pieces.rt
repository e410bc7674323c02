ghost use Rattle.std.specs.Prelude.{◌≡◌, ◌-◌, min, length, take, drop};

/// Copies the bytes from place `from` on to the front of `room`, at most `most` of them, and answers how many.
pub(crate) fn copy_piece(bytes: &[u8], from: u64, most: u64, room: &mut [u8]) -> u64
    ensures amount { result ≡ min most (min (length room.old) (length bytes.now - from)) }
    ensures piece { take result room.new ≡ take result (drop from bytes.now) }
    ensures rest { drop result room.new ≡ drop result room.old }
{
    let start = from.min(bytes.len() as u64) as usize;
    let rest = &bytes[start..];
    let count = rest.len().min(room.len()).min(most as usize);
    room[..count].copy_from_slice(&rest[..count]);
    count as u64
}
