//! The parts of a command.
#![tactic(auto)]

ghost use Rattle.std.specs.Prelude.{◌≡◌};
ghost use Rattle.gs_sdc.specs.Command.{choice_number, same_choice, same_slot};
ghost use Rattle.gs_sdc.specs.Front.{choice_of};
ghost use Rattle.gs_sdc.specs.Parts.{is_letter, is_option, takes_of};
ghost use Rattle.gs_sdc.specs.Reads.{slot_is};

use gs_text::Piece;

/// An option of a command.
#[derive(Clone, Copy, Debug, PartialEq, Eq)]
pub enum Choice {
    /// `-period`.
    Period,
    /// `-name`.
    ClockName,
    /// `-waveform`.
    Waveform,
    /// `-clock`.
    OfClock,
    /// `-max`.
    Max,
    /// `-lib_cell`.
    LibCell,
    /// `-pin`.
    Pin,
    /// `-input_transition_rise`.
    Rise,
    /// `-input_transition_fall`.
    Fall,
    /// `-pin_load`.
    PinLoad,
}

/// What an option takes.
#[derive(Clone, Copy, Debug, PartialEq, Eq)]
pub enum Takes {
    Nothing,
    /// A word that is no option.
    Word,
    /// A word that is no option, or a clock in brackets.
    Clock,
    /// Words between braces.
    List,
}

/// The kind of a part, of which a command has one at most.
#[derive(Clone, Copy, Debug, PartialEq, Eq)]
pub enum Slot {
    /// A word that is no option.
    Value,
    /// Ports in brackets.
    Ports,
    /// An option.
    Chosen(Choice),
}

/// A part of a command, in the text.
#[derive(Clone, Copy, Debug)]
pub enum Part<'a> {
    /// A word that is no option.
    Value(&'a [u8]),
    /// Ports in brackets: the pieces of their names.
    Ports(&'a [Piece]),
    /// An option, and the word or the clock that it takes; empty where it takes none.
    Chosen(Choice, &'a [u8]),
}

impl Choice {
    /// What the option takes.
    pub fn takes(self) -> Takes
        ensures { result ≡ takes_of self }
    {
        match self {
            Choice::Period
            | Choice::ClockName
            | Choice::LibCell
            | Choice::Pin
            | Choice::Rise
            | Choice::Fall => Takes::Word,
            Choice::Waveform => Takes::List,
            Choice::OfClock => Takes::Clock,
            Choice::Max | Choice::PinLoad => Takes::Nothing,
        }
    }

    fn number(self) -> u8
        ensures { result ≡ choice_number self }
    {
        match self {
            Choice::Period => 0,
            Choice::ClockName => 1,
            Choice::Waveform => 2,
            Choice::OfClock => 3,
            Choice::Max => 4,
            Choice::LibCell => 5,
            Choice::Pin => 6,
            Choice::Rise => 7,
            Choice::Fall => 8,
            Choice::PinLoad => 9,
        }
    }

    fn is(self, other: Choice) -> bool
        ensures { result ≡ same_choice self other }
    {
        self.number() == other.number()
    }
}

impl Slot {
    /// Whether two kinds are one.
    pub fn is(self, other: Slot) -> bool
        ensures { result ≡ same_slot self other }
    {
        match self {
            Slot::Value => match other {
                Slot::Value => true,
                Slot::Ports | Slot::Chosen(_) => false,
            },
            Slot::Ports => match other {
                Slot::Ports => true,
                Slot::Value | Slot::Chosen(_) => false,
            },
            Slot::Chosen(choice) => match other {
                Slot::Chosen(o) => choice.is(o),
                Slot::Value | Slot::Ports => false,
            },
        }
    }
}

impl<'a> Part<'a> {
    /// The part's kind.
    pub fn slot(&self) -> Slot
        ensures { result ≡ slot_is self.now }
    {
        match self {
            Part::Value(_) => Slot::Value,
            Part::Ports(_) => Slot::Ports,
            Part::Chosen(choice, _) => Slot::Chosen(*choice),
        }
    }
}

fn is_letter(byte: u8) -> bool
    ensures { result ≡ is_letter byte }
{
    byte >= b'a' && byte <= b'z' || byte >= b'A' && byte <= b'Z'
}

/// Whether a word is an option: a hyphen and a letter come first.
pub fn is_option(text: &[u8]) -> bool
    ensures { result ≡ is_option text.now }
{
    match text {
        [first, second, ..] => *first == b'-' && is_letter(*second),
        [_] => false,
        [] => false,
    }
}

/// The option that a word is.
pub fn choice_of(text: &[u8]) -> Option<Choice>
    ensures { result ≡ choice_of text.now }
{
    if text == b"-period".as_slice() {
        Some(Choice::Period)
    } else if text == b"-name".as_slice() {
        Some(Choice::ClockName)
    } else if text == b"-waveform".as_slice() {
        Some(Choice::Waveform)
    } else if text == b"-clock".as_slice() {
        Some(Choice::OfClock)
    } else if text == b"-max".as_slice() {
        Some(Choice::Max)
    } else if text == b"-lib_cell".as_slice() {
        Some(Choice::LibCell)
    } else if text == b"-pin".as_slice() {
        Some(Choice::Pin)
    } else if text == b"-input_transition_rise".as_slice() {
        Some(Choice::Rise)
    } else if text == b"-input_transition_fall".as_slice() {
        Some(Choice::Fall)
    } else if text == b"-pin_load".as_slice() {
        Some(Choice::PinLoad)
    } else {
        None
    }
}
