//! How many lines a text has, and how many pieces a line.
#![tactic(auto)]

ghost use Rattle.std.specs.Prelude.{◌≡◌, ◌≤◌, ◌==◌, length};
ghost use Rattle.std.specs.List.{prefix_len};
ghost use Rattle.gs_lines.specs.Lines.{line_count};

use gs_text::Piece;

/// How many lines a text has. A newline ends a line; one at the end of the text begins no other, and an empty text has none.
pub fn line_count(bytes: &[u8]) -> usize
    ensures { result ≡ line_count bytes.now }
{
    let breaks = bytes.iter().filter(|b| **b == b'\n').count();
    if bytes.is_empty() || bytes[bytes.len() - 1] == b'\n' {
        breaks
    } else {
        breaks + 1
    }
}

/// How many pieces from the front on have this number of a line.
pub fn run_of(line: u32, pieces: &[Piece]) -> usize
    ensures value { result ≡ prefix_len (λ p. p.line == line) pieces.now }
    ensures within { result ≤ length pieces.now }
{
    pieces.iter().take_while(|p| p.line == line).count()
}
