//! Tokens: what begins at a byte of an expression.
#![tactic(auto)]

ghost use Rattle.std.specs.Prelude.{◌≡◌, ◌+◌, ◌≤◌, length};
ghost use Rattle.std.specs.List.{prefix_len};
ghost use Rattle.gs_text.specs.Bytes.{is_white};
ghost use Rattle.gs_expr.specs.Cutting.{FitsIn, begins, begins_name, is_name_byte, mark};

/// What a token is.
#[derive(Clone, Copy, Debug, PartialEq, Eq)]
pub enum Class {
    /// `0`
    Zero,
    /// `1`
    One,
    /// A letter or `_`, and then letters, digits, `_`, `[` and `]`.
    Name,
    /// `!`
    Bang,
    /// `'`
    Tick,
    /// `*` or `&`
    Star,
    /// `^`
    Caret,
    /// `+` or `|`
    Plus,
    /// `(`
    Opens,
    /// `)`
    Closes,
    /// A byte that begins no token.
    Other,
}

/// What begins at a byte that no token has taken yet.
pub enum Front {
    /// White, which belongs to no token.
    Gap,
    /// A token of so many bytes.
    Found(Class, usize),
}

/// Space, tab, carriage return, form feed or newline.
fn is_white(byte: u8) -> bool
    ensures { result ≡ is_white byte }
{
    byte == b' ' || byte == b'\t' || byte == b'\r' || byte == 12 || byte == b'\n'
}

/// A letter or `_`.
fn begins_name(byte: u8) -> bool
    ensures { result ≡ begins_name byte }
{
    b'a' <= byte && byte <= b'z' || b'A' <= byte && byte <= b'Z' || byte == b'_'
}

/// A byte that a name may go on with.
fn is_name_byte(byte: u8) -> bool
    ensures { result ≡ is_name_byte byte }
{
    begins_name(byte) || b'0' <= byte && byte <= b'9' || byte == b'[' || byte == b']'
}

/// How many bytes at the front may stand in a name.
fn name_len(bytes: &[u8]) -> usize
    ensures value { result ≡ prefix_len is_name_byte bytes.now }
    ensures within { result ≤ length bytes.now }
{
    bytes.iter().take_while(|byte| is_name_byte(**byte)).count()
}

/// What a byte is that is neither white nor begins a name.
fn mark(byte: u8) -> Class
    ensures { result ≡ mark byte }
{
    if byte == b'0' {
        Class::Zero
    } else if byte == b'1' {
        Class::One
    } else if byte == b'!' {
        Class::Bang
    } else if byte == b'\'' {
        Class::Tick
    } else if byte == b'*' || byte == b'&' {
        Class::Star
    } else if byte == b'^' {
        Class::Caret
    } else if byte == b'+' || byte == b'|' {
        Class::Plus
    } else if byte == b'(' {
        Class::Opens
    } else if byte == b')' {
        Class::Closes
    } else {
        Class::Other
    }
}

/// What begins with `byte` before `rest`.
pub fn begins(byte: u8, rest: &[u8]) -> Front
    ensures value { result ≡ begins byte rest.now }
    ensures fits { FitsIn (length rest.now + 1) result }
{
    if is_white(byte) {
        return Front::Gap;
    }
    if begins_name(byte) {
        return Front::Found(Class::Name, name_len(rest) + 1);
    }
    Front::Found(mark(byte), 1)
}
