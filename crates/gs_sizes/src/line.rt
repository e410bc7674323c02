//! Lines and words.
#![tactic(auto)]

ghost use Rattle.std.specs.Prelude.{◌≡◌, ◌+◌, ◌≤◌, ◌==◌, ◌∷◌, [], not, drop, length, take, MatchOption};
ghost use Rattle.std.specs.List.{prefix_len};
ghost use Rattle.gs_sizes.specs.Lines.{is_blank, runs, without_return};

// How many bytes stand before the first newline, or all.
fn line_len(bytes: &[u8]) -> usize
    ensures value { result ≡ prefix_len (λ c. not (c == 10)) bytes.now }
    ensures within { result ≤ length bytes.now }
{
    bytes.iter().take_while(|c| **c != b'\n').count()
}

/// The line that begins at a place, without its newline.
pub fn line_at(bytes: &[u8], at: usize) -> &[u8]
    requires { at ≤ length bytes.now }
    ensures value { result.now ≡ take (prefix_len (λ c. not (c == 10)) (drop at bytes.now)) (drop at bytes.now) }
    ensures many { length result.now ≡ prefix_len (λ c. not (c == 10)) (drop at bytes.now) }
    ensures within { at + length result.now ≤ length bytes.now }
{
    let rest = &bytes[at..];
    &rest[..line_len(rest)]
}

/// A line without the carriage return at its end.
pub fn without_return(line: &[u8]) -> &[u8]
    ensures { result.now ≡ without_return line.now }
{
    if !line.is_empty() && line[line.len() - 1] == b'\r' {
        &line[..line.len() - 1]
    } else {
        line
    }
}

fn is_blank(byte: u8) -> bool
    ensures { result ≡ is_blank byte }
{
    byte == b' ' || byte == b'\t'
}

// How many blanks stand in front.
fn blank_len(bytes: &[u8]) -> usize
    ensures value { result ≡ prefix_len is_blank bytes.now }
    ensures within { result ≤ length bytes.now }
{
    bytes.iter().take_while(|c| is_blank(**c)).count()
}

// The bytes after the blanks in front.
fn after_blanks(bytes: &[u8]) -> &[u8]
    ensures { result.now ≡ drop (prefix_len is_blank bytes.now) bytes.now }
{
    &bytes[blank_len(bytes)..]
}

// How many bytes stand before the first blank, or all.
fn word_len(bytes: &[u8]) -> usize
    ensures value { result ≡ prefix_len (λ c. not (is_blank c)) bytes.now }
    ensures within { result ≤ length bytes.now }
{
    bytes.iter().take_while(|c| !is_blank(**c)).count()
}

/// The first word of these bytes, and what follows it, where there is a word.
pub fn first_word(bytes: &[u8]) -> Option<(&[u8], &[u8])>
    ensures { MatchOption result (runs bytes.now ≡ []) (λ p. runs bytes.now ≡ p.0.now ∷ runs p.1.now) }
{
    let rest = after_blanks(bytes);
    let len = word_len(rest);
    if len == 0 {
        None
    } else {
        Some((&rest[..len], &rest[len..]))
    }
}
