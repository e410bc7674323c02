//! The part that begins a command's pieces.
#![tactic(auto)]

ghost use Rattle.std.specs.Prelude.{◌≡◌, ◌<◌, ◌≤◌, length, map, IfSome};
ghost use Rattle.std.specs.List.{All};
ghost use Rattle.std.specs.Option.{option_map};
ghost use Rattle.gs_sdc.specs.Front.{braces_front, chosen_front, clock_front, closed, front, get_front, list_front, names_front, ports_front, single, taken_front, word_front};
ghost use Rattle.gs_sdc.specs.Reads.{HasInside, found_names, found_part, found_word};
ghost use Rattle.gs_sdc.specs.Token.{token_of};
ghost use Rattle.gs_text.specs.Pieces.{LiesIn};

use crate::parts::{Choice, Part, Takes, choice_of, is_option};
use crate::token::{Mark, mark_of};
use gs_text::{Piece, text_of};

/// Names that are found, and the pieces after them.
#[derive(Clone, Copy, Debug)]
pub struct Names<'a> {
    pub names: &'a [Piece],
    pub rest: &'a [Piece],
}

/// A word that is found, and the pieces after it.
#[derive(Clone, Copy, Debug)]
pub struct Argument<'a> {
    pub word: &'a [u8],
    pub rest: &'a [Piece],
}

/// A part that is found, and the pieces after it.
#[derive(Clone, Copy, Debug)]
pub struct FoundPart<'a> {
    pub part: Part<'a>,
    pub rest: &'a [Piece],
}

/// Words up to a closing brace.
fn list_front<'a>(bytes: &[u8], pieces: &'a [Piece]) -> Option<Names<'a>>
    requires { All (LiesIn (length bytes.now)) pieces.now }
    ensures value { option_map (found_names bytes.now) result ≡ list_front (map (token_of bytes.now) pieces.now) }
    ensures shorter { IfSome result (λ f. length f.rest.now < length pieces.now) }
    ensures names { IfSome result (λ f. All (LiesIn (length bytes.now)) f.names.now) }
    ensures rest { IfSome result (λ f. All (LiesIn (length bytes.now)) f.rest.now) }
{
    for (i, piece) in pieces.iter().enumerate() {
        match mark_of(bytes, piece) {
            Mark::Word => {}
            Mark::ClosesList => {
                return Some(Names {
                    names: &pieces[..i],
                    rest: &pieces[i + 1..],
                });
            }
            Mark::Opens | Mark::Closes | Mark::OpensList | Mark::Stray => return None,
        }
    }
    None
}

/// One word, or words between braces.
fn names_front<'a>(bytes: &[u8], pieces: &'a [Piece]) -> Option<Names<'a>>
    requires { All (LiesIn (length bytes.now)) pieces.now }
    ensures value { option_map (found_names bytes.now) result ≡ names_front (map (token_of bytes.now) pieces.now) }
    ensures shorter { IfSome result (λ f. length f.rest.now < length pieces.now) }
    ensures names { IfSome result (λ f. All (LiesIn (length bytes.now)) f.names.now) }
    ensures rest { IfSome result (λ f. All (LiesIn (length bytes.now)) f.rest.now) }
{
    match pieces {
        [] => None,
        [first, rest @ ..] => match mark_of(bytes, first) {
            Mark::Word => Some(Names {
                names: &pieces[..1],
                rest,
            }),
            Mark::OpensList => list_front(bytes, rest),
            Mark::Opens | Mark::Closes | Mark::ClosesList | Mark::Stray => None,
        },
    }
}

/// Names before a closing bracket.
fn closed<'a>(bytes: &[u8], found: Option<Names<'a>>) -> Option<Names<'a>>
    requires names { IfSome found (λ f. All (LiesIn (length bytes.now)) f.names.now) }
    requires rest { IfSome found (λ f. All (LiesIn (length bytes.now)) f.rest.now) }
    ensures value { option_map (found_names bytes.now) result ≡ closed (option_map (found_names bytes.now) found.entry) }
    ensures shorter { IfSome result (λ f. IfSome found.entry (λ g. length f.rest.now < length g.rest.now)) }
    ensures names { IfSome result (λ f. All (LiesIn (length bytes.now)) f.names.now) }
    ensures rest { IfSome result (λ f. All (LiesIn (length bytes.now)) f.rest.now) }
{
    let Names { names, rest } = found?;
    match rest {
        [] => None,
        [first, rest @ ..] => match mark_of(bytes, first) {
            Mark::Closes => Some(Names { names, rest }),
            Mark::Word | Mark::Opens | Mark::OpensList | Mark::ClosesList | Mark::Stray => None,
        },
    }
}

/// What stands behind an opening bracket.
fn get_front<'a>(bytes: &[u8], get: &[u8], pieces: &'a [Piece]) -> Option<Names<'a>>
    requires { All (LiesIn (length bytes.now)) pieces.now }
    ensures value { option_map (found_names bytes.now) result ≡ get_front get.now (map (token_of bytes.now) pieces.now) }
    ensures shorter { IfSome result (λ f. length f.rest.now < length pieces.now) }
    ensures names { IfSome result (λ f. All (LiesIn (length bytes.now)) f.names.now) }
    ensures rest { IfSome result (λ f. All (LiesIn (length bytes.now)) f.rest.now) }
{
    match pieces {
        [] => None,
        [first, rest @ ..] => match mark_of(bytes, first) {
            Mark::Word => {
                if text_of(bytes, first) == get {
                    closed(bytes, names_front(bytes, rest))
                } else {
                    None
                }
            }
            Mark::Opens | Mark::Closes | Mark::OpensList | Mark::ClosesList | Mark::Stray => None,
        },
    }
}

/// One name.
fn single<'a>(bytes: &'a [u8], found: Option<Names<'a>>) -> Option<Argument<'a>>
    requires names { IfSome found (λ f. All (LiesIn (length bytes.now)) f.names.now) }
    requires rest { IfSome found (λ f. All (LiesIn (length bytes.now)) f.rest.now) }
    ensures value { option_map (found_word bytes.now) result ≡ single (option_map (found_names bytes.now) found.entry) }
    ensures shorter { IfSome result (λ f. IfSome found.entry (λ g. length f.rest.now ≤ length g.rest.now)) }
    ensures rest { IfSome result (λ f. All (LiesIn (length bytes.now)) f.rest.now) }
{
    let Names { names, rest } = found?;
    match names {
        [only] => Some(Argument {
            word: text_of(bytes, only),
            rest,
        }),
        [] => None,
        [_, _, ..] => None,
    }
}

/// A word that is no option.
fn word_front<'a>(bytes: &'a [u8], pieces: &'a [Piece]) -> Option<Argument<'a>>
    requires { All (LiesIn (length bytes.now)) pieces.now }
    ensures value { option_map (found_word bytes.now) result ≡ word_front (map (token_of bytes.now) pieces.now) }
    ensures shorter { IfSome result (λ f. length f.rest.now ≤ length pieces.now) }
    ensures rest { IfSome result (λ f. All (LiesIn (length bytes.now)) f.rest.now) }
{
    match pieces {
        [] => None,
        [first, rest @ ..] => match mark_of(bytes, first) {
            Mark::Word => {
                let word = text_of(bytes, first);
                if is_option(word) {
                    None
                } else {
                    Some(Argument { word, rest })
                }
            }
            Mark::Opens | Mark::Closes | Mark::OpensList | Mark::ClosesList | Mark::Stray => None,
        },
    }
}

/// A clock: a word that is no option, or a name in brackets.
fn clock_front<'a>(bytes: &'a [u8], pieces: &'a [Piece]) -> Option<Argument<'a>>
    requires { All (LiesIn (length bytes.now)) pieces.now }
    ensures value { option_map (found_word bytes.now) result ≡ clock_front (map (token_of bytes.now) pieces.now) }
    ensures shorter { IfSome result (λ f. length f.rest.now ≤ length pieces.now) }
    ensures rest { IfSome result (λ f. All (LiesIn (length bytes.now)) f.rest.now) }
{
    match pieces {
        [] => None,
        [first, rest @ ..] => match mark_of(bytes, first) {
            Mark::Word => word_front(bytes, pieces),
            Mark::Opens => single(bytes, get_front(bytes, b"get_clocks", rest)),
            Mark::Closes | Mark::OpensList | Mark::ClosesList | Mark::Stray => None,
        },
    }
}

/// Words between braces, which don't count.
fn braces_front<'a>(bytes: &'a [u8], pieces: &'a [Piece]) -> Option<Argument<'a>>
    requires { All (LiesIn (length bytes.now)) pieces.now }
    ensures value { option_map (found_word bytes.now) result ≡ braces_front (map (token_of bytes.now) pieces.now) }
    ensures shorter { IfSome result (λ f. length f.rest.now ≤ length pieces.now) }
    ensures rest { IfSome result (λ f. All (LiesIn (length bytes.now)) f.rest.now) }
{
    match pieces {
        [] => None,
        [first, rest @ ..] => match mark_of(bytes, first) {
            Mark::OpensList => {
                let found = list_front(bytes, rest)?;
                Some(Argument {
                    word: b"",
                    rest: found.rest,
                })
            }
            Mark::Word | Mark::Opens | Mark::Closes | Mark::ClosesList | Mark::Stray => None,
        },
    }
}

/// What an option takes.
fn taken_front<'a>(bytes: &'a [u8], takes: Takes, pieces: &'a [Piece]) -> Option<Argument<'a>>
    requires { All (LiesIn (length bytes.now)) pieces.now }
    ensures value { option_map (found_word bytes.now) result ≡ taken_front takes (map (token_of bytes.now) pieces.now) }
    ensures shorter { IfSome result (λ f. length f.rest.now ≤ length pieces.now) }
    ensures rest { IfSome result (λ f. All (LiesIn (length bytes.now)) f.rest.now) }
{
    match takes {
        Takes::Nothing => Some(Argument {
            word: b"",
            rest: pieces,
        }),
        Takes::Word => word_front(bytes, pieces),
        Takes::Clock => clock_front(bytes, pieces),
        Takes::List => braces_front(bytes, pieces),
    }
}

/// An option, and what it takes.
fn chosen_front<'a>(
    bytes: &'a [u8],
    choice: Option<Choice>,
    pieces: &'a [Piece],
) -> Option<FoundPart<'a>>
    requires { All (LiesIn (length bytes.now)) pieces.now }
    ensures value { option_map (found_part bytes.now) result ≡ chosen_front choice (map (token_of bytes.now) pieces.now) }
    ensures shorter { IfSome result (λ f. length f.rest.now ≤ length pieces.now) }
    ensures part { IfSome result (λ f. HasInside bytes.now f.part) }
    ensures rest { IfSome result (λ f. All (LiesIn (length bytes.now)) f.rest.now) }
{
    let choice = choice?;
    let found = taken_front(bytes, choice.takes(), pieces)?;
    Some(FoundPart {
        part: Part::Chosen(choice, found.word),
        rest: found.rest,
    })
}

/// Ports, of which there is one at least.
fn ports_front<'a>(bytes: &[u8], found: Option<Names<'a>>) -> Option<FoundPart<'a>>
    requires names { IfSome found (λ f. All (LiesIn (length bytes.now)) f.names.now) }
    requires rest { IfSome found (λ f. All (LiesIn (length bytes.now)) f.rest.now) }
    ensures value { option_map (found_part bytes.now) result ≡ ports_front (option_map (found_names bytes.now) found.entry) }
    ensures shorter { IfSome result (λ f. IfSome found.entry (λ g. length f.rest.now ≤ length g.rest.now)) }
    ensures part { IfSome result (λ f. HasInside bytes.now f.part) }
    ensures rest { IfSome result (λ f. All (LiesIn (length bytes.now)) f.rest.now) }
{
    let Names { names, rest } = found?;
    match names {
        [] => None,
        [_, ..] => Some(FoundPart {
            part: Part::Ports(names),
            rest,
        }),
    }
}

/// The part that begins the pieces.
pub fn front<'a>(bytes: &'a [u8], pieces: &'a [Piece]) -> Option<FoundPart<'a>>
    requires { All (LiesIn (length bytes.now)) pieces.now }
    ensures value { option_map (found_part bytes.now) result ≡ front (map (token_of bytes.now) pieces.now) }
    ensures shorter { IfSome result (λ f. length f.rest.now < length pieces.now) }
    ensures part { IfSome result (λ f. HasInside bytes.now f.part) }
    ensures rest { IfSome result (λ f. All (LiesIn (length bytes.now)) f.rest.now) }
{
    match pieces {
        [] => None,
        [first, rest @ ..] => match mark_of(bytes, first) {
            Mark::Word => {
                let word = text_of(bytes, first);
                if is_option(word) {
                    chosen_front(bytes, choice_of(word), rest)
                } else {
                    Some(FoundPart {
                        part: Part::Value(word),
                        rest,
                    })
                }
            }
            Mark::Opens => ports_front(bytes, get_front(bytes, b"get_ports", rest)),
            Mark::Closes | Mark::OpensList | Mark::ClosesList | Mark::Stray => None,
        },
    }
}
