//! The commands, and what each says.
#![tactic(auto)]

ghost use Rattle.std.specs.Prelude.{◌≡◌, ◌≤◌};
ghost use Rattle.gs_sdc.specs.Command.{has, has_choice, has_ports, has_value, is_clock, is_delay, is_driving, is_load};
ghost use Rattle.gs_sdc.specs.Front.{keyword_of};

use crate::parts::{Choice, Slot};

/// A command that is read.
#[derive(Clone, Copy, Debug, PartialEq, Eq)]
pub enum Command {
    /// `set sdc_version`.
    Version,
    /// `current_design`.
    Design,
    /// `create_clock`.
    Clock,
    /// `set_input_delay`.
    InputDelay,
    /// `set_output_delay`.
    OutputDelay,
    /// `set_driving_cell`.
    DrivingCell,
    /// `set_load`.
    Load,
}

/// What a command gives to ports.
#[derive(Clone, Copy, Debug, PartialEq, Eq)]
pub enum Quantity {
    InputDelay,
    OutputDelay,
    PortLoad,
}

/// What a command's first word is.
#[derive(Clone, Copy, Debug, PartialEq, Eq)]
pub enum Keyword {
    /// `set`.
    Set,
    /// `current_design`.
    Design,
    /// `create_clock`.
    Clock,
    /// `set_input_delay`.
    InputDelay,
    /// `set_output_delay`.
    OutputDelay,
    /// `set_driving_cell`.
    DrivingCell,
    /// `set_load`.
    Load,
    /// `set_max_area`.
    MaxArea,
    Other,
}

/// What a text's first word is.
pub fn keyword_of(text: &[u8]) -> Keyword
    ensures { result ≡ keyword_of text.now }
{
    if text == b"set_input_delay".as_slice() {
        Keyword::InputDelay
    } else if text == b"set_output_delay".as_slice() {
        Keyword::OutputDelay
    } else if text == b"set_driving_cell".as_slice() {
        Keyword::DrivingCell
    } else if text == b"set_load".as_slice() {
        Keyword::Load
    } else if text == b"create_clock".as_slice() {
        Keyword::Clock
    } else if text == b"set".as_slice() {
        Keyword::Set
    } else if text == b"current_design".as_slice() {
        Keyword::Design
    } else if text == b"set_max_area".as_slice() {
        Keyword::MaxArea
    } else {
        Keyword::Other
    }
}

impl Command {
    fn is_clock(self) -> bool
        ensures { result ≡ is_clock self }
    {
        match self {
            Command::Clock => true,
            Command::Version
            | Command::Design
            | Command::InputDelay
            | Command::OutputDelay
            | Command::DrivingCell
            | Command::Load => false,
        }
    }

    fn is_delay(self) -> bool
        ensures { result ≡ is_delay self }
    {
        match self {
            Command::InputDelay | Command::OutputDelay => true,
            Command::Version
            | Command::Design
            | Command::Clock
            | Command::DrivingCell
            | Command::Load => false,
        }
    }

    fn is_driving(self) -> bool
        ensures { result ≡ is_driving self }
    {
        match self {
            Command::DrivingCell => true,
            Command::Version
            | Command::Design
            | Command::Clock
            | Command::InputDelay
            | Command::OutputDelay
            | Command::Load => false,
        }
    }

    fn is_load(self) -> bool
        ensures { result ≡ is_load self }
    {
        match self {
            Command::Load => true,
            Command::Version
            | Command::Design
            | Command::Clock
            | Command::InputDelay
            | Command::OutputDelay
            | Command::DrivingCell => false,
        }
    }

    fn has_choice(self, choice: Choice) -> bool
        ensures { result ≡ has_choice self choice }
    {
        match choice {
            Choice::Period | Choice::ClockName | Choice::Waveform => self.is_clock(),
            Choice::OfClock | Choice::Max => self.is_delay(),
            Choice::LibCell | Choice::Pin | Choice::Rise | Choice::Fall => self.is_driving(),
            Choice::PinLoad => self.is_load(),
        }
    }

    fn has_value(self) -> bool
        ensures { result ≡ has_value self }
    {
        match self {
            Command::Version
            | Command::Design
            | Command::InputDelay
            | Command::OutputDelay
            | Command::Load => true,
            Command::Clock | Command::DrivingCell => false,
        }
    }

    fn has_ports(self) -> bool
        ensures { result ≡ has_ports self }
    {
        match self {
            Command::Clock
            | Command::InputDelay
            | Command::OutputDelay
            | Command::DrivingCell
            | Command::Load => true,
            Command::Version | Command::Design => false,
        }
    }

    /// Whether the command has parts of this kind.
    pub fn has(self, slot: Slot) -> bool
        ensures { result ≡ has self slot }
    {
        match slot {
            Slot::Value => self.has_value(),
            Slot::Ports => self.has_ports(),
            Slot::Chosen(choice) => self.has_choice(choice),
        }
    }
}
