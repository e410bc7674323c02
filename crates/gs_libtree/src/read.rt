//! Reading a Liberty text.
#![tactic(auto)]

ghost use Rattle.std.specs.Prelude.{◌≡◌, ◌≤◌, ℕ, length, IfErr, IfOk};
ghost use Rattle.gs_grammar.specs.Answers.{IsDecided, IsExact, IsOnly, IsRefused, renamed};
ghost use Rattle.gs_text.specs.Bytes.{max_text};
ghost use Rattle.gs_libtree.specs.Bytes.{bytes_of};
ghost use Rattle.gs_libtree.specs.Reading.{refusal_of};
ghost use Rattle.gs_libtree.specs.Refusal.{HasCause, IsLiberty};

use crate::error::{LibTextErr, Rule, refusal_of};
use crate::reader::Reader;
use crate::tree::{Group, Node};
use gs_drive::{Refusal, drive};
use gs_text::Style;
use std::alloc::Global;

/// What is read, as a whole text's group, with the refusals of a Liberty text.
fn told(read: Result<Node, Refusal<Rule>>) -> Result<Group, LibTextErr>
    requires { IfOk read (λ g. bytes_of g ≤ max_text) }
    ensures { result ≡ renamed refusal_of read }
{
    match read {
        Ok(root) => Ok(Group::of(root)),
        Err(refusal) => Err(refusal_of(refusal)),
    }
}

/// Reads a Liberty text of at most 2^28 bytes: the group that the whole text is.
///
/// # Errors
///
/// `OpenString` or `OpenComment` first, also where memory ran out; else the first of `TooDeep` and `BadPiece` in the text's
/// order; `Mem` where memory ran out.
pub fn read_tree(alloc: Global, bytes: &[u8]) -> Result<Group, LibTextErr>
    requires { length bytes.now ≤ max_text }
    // What is read is a Liberty text, and stands for this group.
    ensures ok { IfOk result (λ g. IsLiberty bytes.now g) }
    // A text is read as the one group that it stands for, unless memory runs out.
    ensures only { IsOnly LibTextErr.Mem (IsLiberty bytes.now) result }
    // Each refusal comes only by its cause,
    ensures err { IfErr result (λ e. HasCause bytes.now e) }
    // and where a cause stands, its refusal comes, unless memory runs out.
    ensures exact { IsExact LibTextErr.Mem (HasCause bytes.now) result }
    // A string or a comment without an end is always told: it is never answered as want of memory.
    ensures string { (at : ℕ) → HasCause bytes.now (LibTextErr.OpenString at) → IsRefused (LibTextErr.OpenString at) result }
    ensures comment { (at : ℕ) → HasCause bytes.now (LibTextErr.OpenComment at) → IsRefused (LibTextErr.OpenComment at) result }
    // Each text is a Liberty text, or has a cause other than want of memory.
    ensures decided { IsDecided LibTextErr.Mem (IsLiberty bytes.now) (HasCause bytes.now) }
    // The names, args and values of what is read have together no more bytes than the text.
    ensures small { IfOk result (λ g. bytes_of g ≤ length bytes.now) }
{
    told(drive::<Reader>(alloc, Style::Lib, bytes))
}

#[cfg(test)]
mod tests {
    use super::*;
    use crate::tree::Item;
    use std::alloc::AllocError;
    use std::test::Fail;

    #[test]
    fn items_stand_in_order(rt: HostRuntime) -> Result<(), Fail> {
        let text =
            b"library (\"x y\", z) { ; a : b \"c\" ; d (1, \"2\" 3) ; ; cell (w) { e : f ; } }".as_slice();
        let root = read_tree(rt.alloc(), text)?;
        let root = root.root();
        assert!(rt; root.name.is(b"library") && root.args.len() == 2);
        let shown = match root.items.as_slice() {
            [
                Item::Simple { name, value },
                Item::Complex {
                    name: called,
                    values,
                },
                Item::Sub(cell),
            ] => {
                name.is(b"a")
                    && value.is(b"b")
                    && called.is(b"d")
                    && values.len() == 3
                    && cell.name.is(b"cell")
                    && cell.items.len() == 1
            }
            _ => false,
        };
        assert!(rt; shown);
        Ok(())
    }

    /// Whether the text is refused so.
    fn is_refused(alloc: Global, text: &[u8], wanted: LibTextErr) -> bool
        requires { length text.now ≤ max_text }
    {
        match read_tree(alloc, text) {
            Ok(_) => false,
            Err(error) => error == wanted,
        }
    }

    #[test]
    fn pieces_are_refused_at_their_places(rt: HostRuntime) {
        let alloc = rt.alloc();
        assert!(rt; is_refused(alloc, b"", LibTextErr::BadPiece { i: 0 }));
        assert!(rt; is_refused(alloc, b"a : b ;", LibTextErr::BadPiece { i: 1 }));
        assert!(rt; is_refused(alloc, b"a (b,,c) {}", LibTextErr::BadPiece { i: 4 }));
        assert!(rt; is_refused(alloc, b"a (b) { c : d }", LibTextErr::BadPiece { i: 8 }));
        assert!(rt; is_refused(alloc, b"a (b) { c (d) }", LibTextErr::BadPiece { i: 9 }));
        assert!(rt; is_refused(alloc, b"a (b) {} ;", LibTextErr::BadPiece { i: 6 }));
        assert!(rt; is_refused(alloc, b"a (b) {", LibTextErr::BadPiece { i: 5 }));
    }

    #[test]
    fn strings_and_comments_without_an_end(rt: HostRuntime) {
        let alloc = rt.alloc();
        assert!(rt; is_refused(alloc, b"a ( /* \"", LibTextErr::OpenComment { at: 4 }));
        assert!(rt; is_refused(alloc, b") \"b", LibTextErr::OpenString { at: 2 }));
    }

    /// So many groups in one another.
    fn nested(alloc: Global, depth: usize) -> Result<Vec<u8>, AllocError> {
        let mut text = Vec::new(alloc);
        for _ in 0..depth {
            text.extend_from_slice(b"g(){")?;
        }
        for _ in 0..depth {
            text.extend_from_slice(b"}")?;
        }
        Ok(text)
    }

    #[test]
    fn groups_are_at_most_64_deep(rt: HostRuntime) -> Result<(), Fail> {
        let text = nested(rt.alloc(), 64)?;
        assert!(rt; text.len() < 1000);
        assert!(rt; read_tree(rt.alloc(), text.as_slice()).is_ok());
        let deeper = nested(rt.alloc(), 65)?;
        assert!(rt; deeper.len() < 1000);
        let refused = match read_tree(rt.alloc(), deeper.as_slice()) {
            Ok(_) => false,
            Err(error) => error == LibTextErr::TooDeep { i: 259 },
        };
        assert!(rt; refused);
        Ok(())
    }
}
