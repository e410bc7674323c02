//! Texts of each style and their pieces, as tables.
#![tactic(auto)]

ghost use Rattle.std.specs.Prelude.{◌≡◌, ◌≤◌, length};
ghost use Rattle.gs_text.specs.Bytes.{max_text};

use crate::kinds::{Kind, Piece, Style, TextErr};
use crate::lexer::{pieces, text_of};
use std::alloc::Global;

/// A piece as the tables write it: its kind, its place and its line.
fn piece(kind: Kind, from: u32, to: u32, line: u32) -> Piece
    ensures kind { result.kind ≡ kind }
    ensures from { result.from ≡ from }
    ensures to { result.to ≡ to }
{
    Piece {
        kind,
        from,
        to,
        line,
    }
}

/// Whether these are the text's pieces.
fn cuts(alloc: Global, style: Style, text: &[u8], wanted: &[Piece]) -> bool
    requires { length text.now ≤ max_text }
{
    match pieces(alloc, style, text) {
        Ok(found) => found.as_slice() == wanted,
        Err(_) => false,
    }
}

/// Whether the text is refused with this error.
fn refuses(alloc: Global, style: Style, text: &[u8], error: TextErr) -> bool
    requires { length text.now ≤ max_text }
{
    match pieces(alloc, style, text) {
        Ok(_) => false,
        Err(found) => found == error,
    }
}

#[test]
fn verilog_words_take_an_index(rt: HostRuntime) {
    let wanted = [
        piece(Kind::Word, 0, 1, 1),
        piece(Kind::Mark, 1, 2, 1),
        piece(Kind::Mark, 2, 3, 1),
        piece(Kind::Word, 5, 12, 2),
        piece(Kind::Word, 12, 13, 2),
        piece(Kind::Mark, 14, 15, 2),
        piece(Kind::Mark, 17, 18, 3),
        piece(Kind::Word, 18, 19, 3),
        piece(Kind::Mark, 19, 20, 3),
    ];
    assert!(rt;
        cuts(
            rt.alloc(),
            Style::Verilog,
            b"a[]\n b_$[07]c ;\r\n[1]",
            &wanted
        )
    );
}

#[test]
fn verilog_comments(rt: HostRuntime) {
    let wanted = [
        piece(Kind::Word, 0, 1, 1),
        piece(Kind::Mark, 1, 2, 1),
        piece(Kind::Word, 2, 3, 1),
        piece(Kind::Word, 12, 13, 2),
        piece(Kind::Word, 24, 25, 3),
        piece(Kind::Mark, 26, 27, 3),
    ];
    let text = b"a/b//c \\d\\\r\nx/*/ \n // */y /";
    assert!(rt; cuts(rt.alloc(), Style::Verilog, text, &wanted));
    assert!(rt; cuts(rt.alloc(), Style::Verilog, b"// /* ", &[]));
    assert!(rt; cuts(rt.alloc(), Style::Verilog, b"//*\n", &[]));
    assert!(rt;
        refuses(
            rt.alloc(),
            Style::Verilog,
            b"a /*/",
            TextErr::OpenComment { at: 2 }
        )
    );
    assert!(rt;
        refuses(
            rt.alloc(),
            Style::Verilog,
            b"/**//* *",
            TextErr::OpenComment { at: 4 }
        )
    );
}

#[test]
fn verilog_escaped_names(rt: HostRuntime) {
    let wanted = [
        piece(Kind::Escaped, 0, 5, 1),
        piece(Kind::Escaped, 6, 12, 1),
        piece(Kind::Mark, 13, 14, 2),
        piece(Kind::Word, 15, 16, 2),
        piece(Kind::Escaped, 17, 20, 2),
        piece(Kind::Mark, 21, 22, 2),
    ];
    assert!(rt;
        cuts(
            rt.alloc(),
            Style::Verilog,
            b"\\n[0] \\a//*;\n\\\tb \\\\c \\",
            &wanted
        )
    );
}

#[test]
fn liberty_strings_comments_and_continued_lines(rt: HostRuntime) {
    let text = b"a /*/ x\n*/(\"p\\\nq\",b/c/*d*/e\\\nf:;";
    let wanted = [
        piece(Kind::Word, 0, 1, 1),
        piece(Kind::Mark, 10, 11, 2),
        piece(Kind::Text, 11, 17, 2),
        piece(Kind::Mark, 17, 18, 3),
        piece(Kind::Word, 18, 21, 3),
        piece(Kind::Word, 26, 27, 3),
        piece(Kind::Word, 29, 30, 4),
        piece(Kind::Mark, 30, 31, 4),
        piece(Kind::Mark, 31, 32, 4),
    ];
    assert!(rt; cuts(rt.alloc(), Style::Lib, text, &wanted));
    // Before a carriage return a backslash continues nothing.
    let bare = [piece(Kind::Word, 0, 2, 1), piece(Kind::Word, 4, 5, 2)];
    assert!(rt; cuts(rt.alloc(), Style::Lib, b"a\\\r\nb", &bare));
}

#[test]
fn liberty_texts_that_are_not_cut(rt: HostRuntime) {
    let alloc = rt.alloc();
    assert!(rt;
        refuses(
            alloc,
            Style::Lib,
            b"a \"b\\\n",
            TextErr::OpenString { at: 2 }
        )
    );
    assert!(rt;
        refuses(
            alloc,
            Style::Lib,
            b"\"a\"b\"",
            TextErr::OpenString { at: 4 }
        )
    );
    assert!(rt; refuses(alloc, Style::Lib, b"x/*/", TextErr::OpenComment { at: 1 }));
    assert!(rt;
        refuses(
            alloc,
            Style::Lib,
            b"\"/*\" /**",
            TextErr::OpenComment { at: 5 }
        )
    );
    assert!(rt;
        cuts(
            alloc,
            Style::Lib,
            b"/* \" */ a",
            &[piece(Kind::Word, 8, 9, 1)]
        )
    );
}

#[test]
fn spef_comments_begin_where_a_word_would(rt: HostRuntime) {
    let wanted = [
        piece(Kind::Word, 0, 6, 1),
        piece(Kind::Word, 7, 9, 1),
        piece(Kind::Word, 14, 15, 2),
        piece(Kind::Word, 23, 27, 3),
    ];
    assert!(rt;
        cuts(
            rt.alloc(),
            Style::Spef,
            b"n1//x\\ *1 // \n* //[a]\r\n\"a\"b",
            &wanted
        )
    );
    assert!(rt; cuts(rt.alloc(), Style::Spef, b"", &[]));
}

#[test]
fn sdc_words_marks_and_texts(rt: HostRuntime) {
    let text = b"a[b \"c d\"e]\n\"f g\\x\r\n";
    let wanted = [
        piece(Kind::Word, 0, 1, 1),
        piece(Kind::Mark, 1, 2, 1),
        piece(Kind::Word, 2, 3, 1),
        piece(Kind::Text, 4, 9, 1),
        piece(Kind::Word, 9, 10, 1),
        piece(Kind::Mark, 10, 11, 1),
        // A quote without a partner on its line is a mark.
        piece(Kind::Mark, 12, 13, 2),
        piece(Kind::Word, 13, 14, 2),
        piece(Kind::Word, 15, 18, 2),
    ];
    assert!(rt; cuts(rt.alloc(), Style::Sdc, text, &wanted));
}

#[test]
fn sdc_braces(rt: HostRuntime) {
    let text = b"{\"a b\" [c]#{ d\\\ne} \"f g\"";
    let wanted = [
        piece(Kind::Mark, 0, 1, 1),
        piece(Kind::Word, 1, 3, 1),
        piece(Kind::Word, 4, 6, 1),
        piece(Kind::Word, 7, 12, 1),
        piece(Kind::Word, 13, 14, 1),
        piece(Kind::Word, 16, 17, 1),
        piece(Kind::Mark, 17, 18, 1),
        piece(Kind::Text, 19, 24, 1),
    ];
    assert!(rt; cuts(rt.alloc(), Style::Sdc, text, &wanted));
}

#[test]
fn sdc_comments_stand_at_a_commands_start(rt: HostRuntime) {
    let text = b" # a {\\\nb #c\n\\\n#d\ne";
    let wanted = [
        // The comment ends with its line, also after a backslash.
        piece(Kind::Word, 8, 9, 2),
        piece(Kind::Word, 10, 12, 2),
        piece(Kind::Word, 18, 19, 5),
    ];
    assert!(rt; cuts(rt.alloc(), Style::Sdc, text, &wanted));
}

#[test]
fn sdc_lines_are_those_of_commands(rt: HostRuntime) {
    let text = b"a\n\\\n\\\n b\\\nc\n\nd";
    let wanted = [
        piece(Kind::Word, 0, 1, 1),
        // The first line of this command holds a backslash alone.
        piece(Kind::Word, 7, 8, 2),
        piece(Kind::Word, 10, 11, 2),
        piece(Kind::Word, 13, 14, 7),
    ];
    assert!(rt; cuts(rt.alloc(), Style::Sdc, text, &wanted));
    // Before a carriage return a backslash continues nothing.
    let bare = [
        piece(Kind::Word, 0, 1, 1),
        piece(Kind::Word, 2, 3, 1),
        piece(Kind::Word, 5, 6, 2),
    ];
    assert!(rt; cuts(rt.alloc(), Style::Sdc, b"a \\\r\nb", &bare));
}

#[test]
fn a_text_is_without_quotes_or_backslash(rt: HostRuntime) {
    let bytes = b"\"ab\" \\cd e".as_slice();
    assert_eq!(rt;
        text_of(bytes, &piece(Kind::Text, 0, 4, 1)),
        b"ab".as_slice()
    );
    assert_eq!(rt;
        text_of(bytes, &piece(Kind::Escaped, 5, 8, 1)),
        b"cd".as_slice()
    );
    assert_eq!(rt;
        text_of(bytes, &piece(Kind::Word, 9, 10, 1)),
        b"e".as_slice()
    );
}
