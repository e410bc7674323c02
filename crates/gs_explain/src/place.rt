//! Lines and columns.
ghost use Rattle.std.specs.Prelude.{◌≡◌, ◌≤◌, ◌+◌, length};
ghost use Rattle.std.specs.List.{count_by, prefix_len};
ghost use Rattle.gs_explain.specs.Place.{bytes_after, bytes_before, column_of, is_newline, line_of, stays};

/// How many newlines are among these bytes.
fn line_breaks(bytes: &[u8]) -> usize
    ensures value { result ≡ count_by is_newline bytes.now }
    ensures within { result ≤ length bytes.now }
{
    bytes.iter().filter(|b| **b == b'\n').count()
}

/// The line of a place, from 1. It looks through the bytes before the place.
pub(crate) fn line_of(bytes: &[u8], at: usize) -> usize
    requires { at ≤ length bytes.now }
    ensures { result ≡ line_of bytes.now at }
{
    1 + line_breaks(&bytes[..at])
}

/// Whether a byte doesn't end its line.
fn stays(byte: u8) -> bool
    ensures { result ≡ stays byte }
{
    byte != b'\n'
}

/// How many bytes stand before a place on its line.
pub(crate) fn bytes_before(bytes: &[u8], at: usize) -> usize
    requires { at ≤ length bytes.now }
    ensures value { result ≡ bytes_before bytes.now at }
    ensures within { result ≤ at }
{
    let mut start = at;
    while start > 0 {
        if !stays(bytes[start - 1]) {
            return at - start;
        }
        start -= 1;
    }
    at - start
}

/// How many bytes stand before the first newline, or all.
fn line_len(bytes: &[u8]) -> usize
    ensures value { result ≡ prefix_len stays bytes.now }
    ensures within { result ≤ length bytes.now }
{
    bytes.iter().take_while(|b| stays(**b)).count()
}

/// How many bytes stand from a place on, up to the next newline.
pub(crate) fn bytes_after(bytes: &[u8], at: usize) -> usize
    requires { at ≤ length bytes.now }
    ensures value { result ≡ bytes_after bytes.now at }
    ensures within { at + result ≤ length bytes.now }
{
    let (_, rest) = bytes.split_at(at);
    line_len(rest)
}

/// The column of a place, from 1, by bytes. It looks through the place's line.
pub(crate) fn column_of(bytes: &[u8], at: usize) -> usize
    requires { at ≤ length bytes.now }
    ensures { result ≡ column_of bytes.now at }
{
    1 + bytes_before(bytes, at)
}
