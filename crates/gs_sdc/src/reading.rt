//! What a command says.
#![tactic(auto)]

ghost use Rattle.std.specs.Prelude.{◌≡◌, ◌<◌, ◌≤◌, ℕ, List, Ok, length, map, IfErr, IfOk, IfSome};
ghost use Rattle.std.specs.List.{All, list_any};
ghost use Rattle.std.specs.Option.{option_map};
ghost use Rattle.gs_amount.specs.Amount.{IsAmount, IsLimited};
ghost use Rattle.gs_sdc.specs.Command.{above_zero, amount_in, as_ports, as_word, clocks_by, drives_by, first_of, gives_by, meaning, number_in, same_slot, passes_by, the_ports, the_value, the_word, transition_in};
ghost use Rattle.gs_sdc.specs.Front.{heading_by, heading_of, parts_of, reading_of, said_by, version_by};
ghost use Rattle.gs_sdc.specs.Reads.{HasInside, HasNumbers, HeadingInside, IsHeaded, IsOf, NamesInside, fits_is, heading_is, names_at, part_of, reading_is, slot_is, word_is};
ghost use Rattle.gs_sdc.specs.Token.{token_of};
ghost use Rattle.gs_text.specs.Pieces.{LiesIn};

use crate::command::{Command, Keyword, Quantity, keyword_of};
use crate::front::front;
use crate::parts::{Choice, Part, Slot};
use crate::token::{Mark, mark_of};
use gs_amount::{read_amount, read_number};
use gs_design::Units;
use gs_quantity::Micro;
use gs_text::{Piece, text_of};
use std::alloc::{AllocError, Global};

/// A driving cell, in the text.
#[derive(Clone, Copy, Debug)]
pub struct Driver<'a> {
    pub cell: &'a [u8],
    pub pin: Option<&'a [u8]>,
    pub rise: Micro,
    pub fall: Micro,
}

/// What a command says, in the text.
#[derive(Clone, Copy, Debug)]
pub enum Reading<'a> {
    /// Nothing that counts.
    Passes,
    /// What isn't built yet.
    NotBuilt,
    /// A clock of this period, at these ports.
    Clocks(Micro, &'a [Piece]),
    /// The same amount to each of these ports.
    Gives(Quantity, Micro, &'a [Piece]),
    /// The same driving cell to each of these ports.
    Drives(Driver<'a>, &'a [Piece]),
}

/// How a command begins.
#[derive(Clone, Copy, Debug)]
pub enum Heading<'a> {
    Unknown,
    Unbuilt,
    /// The command, and the pieces of its parts.
    Heads(Command, &'a [Piece]),
}

/// The first part of a kind.
fn first_of<'a>(parts: &[Part<'a>], slot: Slot) -> Option<Part<'a>>
    ensures value { (bytes : List ℕ) → option_map (part_of bytes) result ≡ first_of slot (map (part_of bytes) parts.now) }
    ensures inside { (bytes : List ℕ) → All (HasInside bytes) parts.now → IfSome result (HasInside bytes) }
{
    for part in parts {
        if slot.is(part.slot()) {
            return Some(*part);
        }
    }
    None
}

fn as_word<'a>(part: Option<Part<'a>>) -> Option<&'a [u8]>
    ensures { (bytes : List ℕ) → option_map word_is result ≡ as_word (option_map (part_of bytes) part.entry) }
{
    match part {
        None => None,
        Some(Part::Value(word)) => Some(word),
        Some(Part::Chosen(_, word)) => Some(word),
        Some(Part::Ports(_)) => None,
    }
}

fn as_ports<'a>(part: Option<Part<'a>>) -> Option<&'a [Piece]>
    ensures value { (bytes : List ℕ) → option_map (names_at bytes) result ≡ as_ports (option_map (part_of bytes) part.entry) }
    ensures inside { (bytes : List ℕ) → IfSome part.entry (HasInside bytes) → IfSome result (λ ps. All (LiesIn (length bytes)) ps.now) }
{
    match part {
        None => None,
        Some(Part::Ports(names)) => Some(names),
        Some(Part::Value(_)) => None,
        Some(Part::Chosen(_, _)) => None,
    }
}

fn the_value<'a>(parts: &[Part<'a>]) -> Option<&'a [u8]>
    ensures { (bytes : List ℕ) → option_map word_is result ≡ the_value (map (part_of bytes) parts.now) }
{
    as_word(first_of(parts, Slot::Value))
}

fn the_word<'a>(parts: &[Part<'a>], choice: Choice) -> Option<&'a [u8]>
    ensures { (bytes : List ℕ) → option_map word_is result ≡ the_word choice (map (part_of bytes) parts.now) }
{
    as_word(first_of(parts, Slot::Chosen(choice)))
}

fn the_ports<'a>(parts: &[Part<'a>]) -> Option<&'a [Piece]>
    ensures value { (bytes : List ℕ) → option_map (names_at bytes) result ≡ the_ports (map (part_of bytes) parts.now) }
    ensures inside { (bytes : List ℕ) → All (HasInside bytes) parts.now → IfSome result (λ ps. All (LiesIn (length bytes)) ps.now) }
{
    as_ports(first_of(parts, Slot::Ports))
}

fn above_zero(number: Option<Micro>) -> Option<Micro>
    requires { IfSome number (λ m. IsLimited m) }
    ensures value { result ≡ above_zero number }
    ensures kept { IfSome result (λ m. IsLimited m) }
{
    match number {
        None => None,
        Some(number) => { if number.0 > 0 { Some(number) } else { None } }
    }
}

fn number_in(word: Option<&[u8]>, tens: u8) -> Option<Micro>
    requires { tens ≤ 9 }
    ensures value { result ≡ number_in (option_map word_is word.entry) tens }
    ensures kept { IfSome result (λ m. IsLimited m) }
{
    match word {
        None => None,
        Some(word) => read_number(word, tens),
    }
}

fn amount_in(word: Option<&[u8]>, tens: u8) -> Option<Micro>
    requires { tens ≤ 9 }
    ensures value { result ≡ amount_in (option_map word_is word.entry) tens }
    ensures kept { IfSome result (λ m. IsAmount m) }
{
    match word {
        None => None,
        Some(word) => read_amount(word, tens),
    }
}

/// A transition, which is 0 where it isn't given.
fn transition_in(word: Option<&[u8]>, tens: u8) -> Option<Micro>
    requires { tens ≤ 9 }
    ensures value { result ≡ transition_in (option_map word_is word.entry) tens }
    ensures kept { IfSome result (λ m. IsAmount m) }
{
    match word {
        None => Some(Micro(0)),
        Some(word) => read_amount(word, tens),
    }
}

fn passes_by<'a>(word: Option<&[u8]>) -> Option<Reading<'a>>
    ensures value { (bytes : List ℕ) → option_map (reading_is bytes) result ≡ passes_by (option_map word_is word.entry) }
    ensures kept { IfSome result HasNumbers }
    ensures inside { (bytes : List ℕ) → IfSome result (NamesInside bytes) }
{
    match word {
        None => None,
        Some(_) => Some(Reading::Passes),
    }
}

fn clocks_by<'a>(period: Option<Micro>, names: Option<&'a [Piece]>) -> Option<Reading<'a>>
    requires { IfSome period (λ m. IsLimited m) }
    ensures value { (bytes : List ℕ) → option_map (reading_is bytes) result ≡ clocks_by period (option_map (names_at bytes) names.entry) }
    ensures kept { IfSome result HasNumbers }
    ensures inside { (bytes : List ℕ) → IfSome names.entry (λ ps. All (LiesIn (length bytes)) ps.now) → IfSome result (NamesInside bytes) }
{
    match period {
        None => None,
        Some(period) => match names {
            None => Some(Reading::Clocks(period, &[])),
            Some(names) => Some(Reading::Clocks(period, names)),
        },
    }
}

fn gives_by<'a>(
    quantity: Quantity,
    amount: Option<Micro>,
    names: Option<&'a [Piece]>,
) -> Option<Reading<'a>>
    requires { IfSome amount (IsOf quantity) }
    ensures value { (bytes : List ℕ) → option_map (reading_is bytes) result ≡ gives_by quantity amount (option_map (names_at bytes) names.entry) }
    ensures kept { IfSome result HasNumbers }
    ensures inside { (bytes : List ℕ) → IfSome names.entry (λ ps. All (LiesIn (length bytes)) ps.now) → IfSome result (NamesInside bytes) }
{
    match amount {
        None => None,
        Some(amount) => match names {
            None => None,
            Some(names) => Some(Reading::Gives(quantity, amount, names)),
        },
    }
}

fn drives_by<'a>(
    cell: Option<&'a [u8]>,
    pin: Option<&'a [u8]>,
    rise: Option<Micro>,
    fall: Option<Micro>,
    names: Option<&'a [Piece]>,
) -> Option<Reading<'a>>
    requires rise { IfSome rise (λ m. IsAmount m) }
    requires fall { IfSome fall (λ m. IsAmount m) }
    ensures value { (bytes : List ℕ) → option_map (reading_is bytes) result ≡ drives_by (option_map word_is cell.entry) (option_map word_is pin.entry) rise fall (option_map (names_at bytes) names.entry) }
    ensures kept { IfSome result HasNumbers }
    ensures inside { (bytes : List ℕ) → IfSome names.entry (λ ps. All (LiesIn (length bytes)) ps.now) → IfSome result (NamesInside bytes) }
{
    let cell = cell?;
    let rise = rise?;
    let fall = fall?;
    let names = names?;
    Some(Reading::Drives(
        Driver {
            cell,
            pin,
            rise,
            fall,
        },
        names,
    ))
}

/// What `create_clock` says.
fn clock<'a>(units: Units, parts: &[Part<'a>]) -> Option<Reading<'a>>
    ensures value { (bytes : List ℕ) → option_map (reading_is bytes) result ≡ meaning units Command.Clock (map (part_of bytes) parts.now) }
    ensures kept { IfSome result HasNumbers }
    ensures inside { (bytes : List ℕ) → All (HasInside bytes) parts.now → IfSome result (NamesInside bytes) }
{
    let number = number_in(the_word(parts, Choice::Period), units.time_tens);
    clocks_by(above_zero(number), the_ports(parts))
}

/// What `set_input_delay` says.
fn input_delay<'a>(units: Units, parts: &[Part<'a>]) -> Option<Reading<'a>>
    ensures value { (bytes : List ℕ) → option_map (reading_is bytes) result ≡ meaning units Command.InputDelay (map (part_of bytes) parts.now) }
    ensures kept { IfSome result HasNumbers }
    ensures inside { (bytes : List ℕ) → All (HasInside bytes) parts.now → IfSome result (NamesInside bytes) }
{
    let amount = number_in(the_value(parts), units.time_tens);
    gives_by(Quantity::InputDelay, amount, the_ports(parts))
}

/// What `set_output_delay` says.
fn output_delay<'a>(units: Units, parts: &[Part<'a>]) -> Option<Reading<'a>>
    ensures value { (bytes : List ℕ) → option_map (reading_is bytes) result ≡ meaning units Command.OutputDelay (map (part_of bytes) parts.now) }
    ensures kept { IfSome result HasNumbers }
    ensures inside { (bytes : List ℕ) → All (HasInside bytes) parts.now → IfSome result (NamesInside bytes) }
{
    let amount = number_in(the_value(parts), units.time_tens);
    gives_by(Quantity::OutputDelay, amount, the_ports(parts))
}

/// What `set_load` says.
fn port_load<'a>(units: Units, parts: &[Part<'a>]) -> Option<Reading<'a>>
    ensures value { (bytes : List ℕ) → option_map (reading_is bytes) result ≡ meaning units Command.Load (map (part_of bytes) parts.now) }
    ensures kept { IfSome result HasNumbers }
    ensures inside { (bytes : List ℕ) → All (HasInside bytes) parts.now → IfSome result (NamesInside bytes) }
{
    let amount = amount_in(the_value(parts), units.load_tens);
    gives_by(Quantity::PortLoad, amount, the_ports(parts))
}

/// What `set_driving_cell` says.
fn driving_cell<'a>(units: Units, parts: &[Part<'a>]) -> Option<Reading<'a>>
    ensures value { (bytes : List ℕ) → option_map (reading_is bytes) result ≡ meaning units Command.DrivingCell (map (part_of bytes) parts.now) }
    ensures kept { IfSome result HasNumbers }
    ensures inside { (bytes : List ℕ) → All (HasInside bytes) parts.now → IfSome result (NamesInside bytes) }
{
    let cell = the_word(parts, Choice::LibCell);
    let pin = the_word(parts, Choice::Pin);
    let rise_word = the_word(parts, Choice::Rise);
    let rise = transition_in(rise_word, units.time_tens);
    let fall_word = the_word(parts, Choice::Fall);
    let fall = transition_in(fall_word, units.time_tens);
    drives_by(cell, pin, rise, fall, the_ports(parts))
}

/// What a command of these parts says.
fn meaning<'a>(units: Units, command: Command, parts: &[Part<'a>]) -> Option<Reading<'a>>
    ensures value { (bytes : List ℕ) → option_map (reading_is bytes) result ≡ meaning units command (map (part_of bytes) parts.now) }
    ensures kept { IfSome result HasNumbers }
    ensures inside { (bytes : List ℕ) → All (HasInside bytes) parts.now → IfSome result (NamesInside bytes) }
{
    match command {
        Command::Version => passes_by(the_value(parts)),
        Command::Design => passes_by(the_value(parts)),
        Command::Clock => clock(units, parts),
        Command::InputDelay => input_delay(units, parts),
        Command::OutputDelay => output_delay(units, parts),
        Command::DrivingCell => driving_cell(units, parts),
        Command::Load => port_load(units, parts),
    }
}

/// What a command of these parts says, where there are any.
fn said_by<'a>(units: Units, command: Command, found: &Option<Vec<Part<'a>>>) -> Option<Reading<'a>>
    ensures value { (bytes : List ℕ) → option_map (reading_is bytes) result ≡ said_by units command (option_map (λ v. map (part_of bytes) v.items) found.now) }
    ensures kept { IfSome result HasNumbers }
    ensures inside { (bytes : List ℕ) → IfSome found.now (λ v. All (HasInside bytes) v.items) → IfSome result (NamesInside bytes) }
{
    match found {
        None => None,
        Some(parts) => meaning(units, command, parts.as_slice()),
    }
}

/// Whether one of the parts is of this kind.
fn is_taken<'a>(parts: &[Part<'a>], slot: Slot) -> bool
    ensures { result ≡ list_any (λ q. same_slot slot (slot_is q)) parts.now }
{
    parts.iter().any(|part| slot.is(part.slot()))
}

/// Whether a part is one of the command's, after these.
fn fits<'a>(command: Command, parts: &[Part<'a>], part: &Part<'a>) -> bool
    ensures { result ≡ fits_is command parts.now part.now }
{
    command.has(part.slot()) && !is_taken(parts, part.slot())
}

/// The parts of a command; none where its pieces are no parts that it has, each once.
fn read_parts<'a>(
    alloc: Global,
    bytes: &'a [u8],
    command: Command,
    pieces: &'a [Piece],
) -> Result<Option<Vec<Part<'a>>>, AllocError>
    requires { All (LiesIn (length bytes.now)) pieces.now }
    ensures value { IfOk result (λ o. option_map (λ v. map (part_of bytes.now) v.items) o ≡ parts_of command (map (token_of bytes.now) pieces.now)) }
    ensures inside { IfOk result (λ o. IfSome o (λ v. All (HasInside bytes.now) v.items)) }
{
    let mut parts = Vec::new(alloc);
    let mut left = pieces;
    while left.len() > 0 {
        match front(bytes, left) {
            None => return Ok(None),
            Some(found) => {
                if !fits(command, parts.as_slice(), &found.part) {
                    return Ok(None);
                }
                parts.push(found.part)?;
                left = found.rest;
            }
        }
    }
    Ok(Some(parts))
}

/// How a command that begins with `set` goes on.
fn version_by<'a>(bytes: &[u8], pieces: &'a [Piece]) -> Heading<'a>
    requires { All (LiesIn (length bytes.now)) pieces.now }
    ensures value { heading_is bytes.now result ≡ version_by (map (token_of bytes.now) pieces.now) }
    ensures inside { HeadingInside bytes.now result }
{
    match pieces {
        [] => Heading::Unknown,
        [first, rest @ ..] => match mark_of(bytes, first) {
            Mark::Word => {
                if text_of(bytes, first) == b"sdc_version".as_slice() {
                    Heading::Heads(Command::Version, rest)
                } else {
                    Heading::Unknown
                }
            }
            Mark::Opens | Mark::Closes | Mark::OpensList | Mark::ClosesList | Mark::Stray =>
                Heading::Unknown,
        },
    }
}

/// How a command begins, by its first word.
fn heading_by<'a>(bytes: &[u8], keyword: Keyword, pieces: &'a [Piece]) -> Heading<'a>
    requires { All (LiesIn (length bytes.now)) pieces.now }
    ensures value { heading_is bytes.now result ≡ heading_by keyword (map (token_of bytes.now) pieces.now) }
    ensures inside { HeadingInside bytes.now result }
{
    match keyword {
        Keyword::Set => version_by(bytes, pieces),
        Keyword::Design => Heading::Heads(Command::Design, pieces),
        Keyword::Clock => Heading::Heads(Command::Clock, pieces),
        Keyword::InputDelay => Heading::Heads(Command::InputDelay, pieces),
        Keyword::OutputDelay => Heading::Heads(Command::OutputDelay, pieces),
        Keyword::DrivingCell => Heading::Heads(Command::DrivingCell, pieces),
        Keyword::Load => Heading::Heads(Command::Load, pieces),
        Keyword::MaxArea => Heading::Unbuilt,
        Keyword::Other => Heading::Unknown,
    }
}

/// How a command begins.
fn heading_of<'a>(bytes: &[u8], pieces: &'a [Piece]) -> Heading<'a>
    requires { All (LiesIn (length bytes.now)) pieces.now }
    ensures value { heading_is bytes.now result ≡ heading_of (map (token_of bytes.now) pieces.now) }
    ensures inside { HeadingInside bytes.now result }
{
    match pieces {
        [] => Heading::Unknown,
        [first, rest @ ..] => match mark_of(bytes, first) {
            Mark::Word => heading_by(bytes, keyword_of(text_of(bytes, first)), rest),
            Mark::Opens | Mark::Closes | Mark::OpensList | Mark::ClosesList | Mark::Stray =>
                Heading::Unknown,
        },
    }
}

/// What the pieces of a command say, in the units; none where they are no command.
pub fn read_command<'a>(
    alloc: Global,
    bytes: &'a [u8],
    units: Units,
    pieces: &'a [Piece],
) -> Result<Option<Reading<'a>>, AllocError>
    requires { All (LiesIn (length bytes.now)) pieces.now }
    ensures value { IfOk result (λ o. option_map (reading_is bytes.now) o ≡ reading_of units (map (token_of bytes.now) pieces.now)) }
    ensures kept { IfOk result (λ o. IfSome o HasNumbers) }
    ensures inside { IfOk result (λ o. IfSome o (NamesInside bytes.now)) }
    // Memory runs out only where a known command heads the pieces: all else is told, whatever memory there is.
    ensures told { IfErr result (λ _. IsHeaded (heading_of (map (token_of bytes.now) pieces.now))) }
{
    match heading_of(bytes, pieces) {
        Heading::Unknown => Ok(None),
        Heading::Unbuilt => Ok(Some(Reading::NotBuilt)),
        Heading::Heads(command, rest) => {
            let found = read_parts(alloc, bytes, command, rest)?;
            Ok(said_by(units, command, &found))
        }
    }
}
