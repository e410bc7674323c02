//! The reader's state, and its steps.
#![tactic(auto)]

ghost use Rattle.std.specs.Prelude.{◌≡◌, ◌<◌, ◌≤◌, ◌∷◌, ◌==◌, ◌&&◌, ℕ, List, [], None, Some, length, map, true, IfOk, IfErr, OnOk};
ghost use Rattle.std.specs.List.{All, list_any};
ghost use Rattle.std.specs.Map.{update};
ghost use Rattle.std.specs.Str.{bytes_eq};
ghost use Rattle.gs_names.specs.Names.{find};
ghost use Rattle.gs_amount.specs.Amount.{IsAmount, amount_of};
ghost use Rattle.gs_spef.specs.Format.{is_open, next, says, tens};
ghost use Rattle.gs_spef.specs.Names.{is_index, unescaped};
ghost use Rattle.gs_spef.specs.Reader.{Adds, Begins, Holds, IsReader, Stops, StopsAtNet, Tells, of_net, plain_fault};
ghost use Rattle.gs_spef.specs.Spef.{Row, begin_fault, fault, net_fault, net_named, unit_of};
ghost use Rattle.gs_text.specs.Pieces.{LiesIn, text_of};

use crate::error::{Fault, Stop};
use crate::format::{Amount, Farads, Place, Says, Unit, is_open, line_says, next};
use crate::wires::Wire;
use crate::words::{is_index, name_of, word};
use gs_amount::read_amount;
use gs_names::NameMap;
use gs_quantity::Micro;
use gs_text::{Name, Piece};
use std::alloc::{AllocError, Global};

/// What the lines so far say of the next.
#[derive(Drop)]
pub struct Reader {
    pub place: Place,
    pub unit: Unit,
    /// The name of each index, by the index.
    pub names: NameMap<Name>,
    /// The nets of the blocks.
    pub nets: NameMap<()>,
    pub wires: Vec<Wire>,
}

impl Reader {
    /// A reader before any line. It finds names in `buckets` buckets.
    pub fn new(alloc: Global, buckets: usize) -> Result<Reader, AllocError>
        requires { 0 < buckets }
        ensures kept { IfOk result IsReader }
        ensures holds { IfOk result (λ r. Holds r []) }
    {
        let names = NameMap::new(alloc, buckets)?;
        let nets = NameMap::new(alloc, buckets)?;
        Ok(Reader {
            place: Place::Outside,
            unit: Unit {
                amount: Amount::One,
                farads: Farads::Femto,
            },
            names,
            nets,
            wires: Vec::new(alloc),
        })
    }

    /// The name of an index.
    fn indexed(&self, alloc: Global, index: &[u8]) -> Result<Name, Stop>
        requires { IsReader self.now }
        ensures ok { IfOk result (λ n. find self.now.names index.now ≡ Some n) }
        ensures err { IfErr result (λ e. (past : List Row) → Stops e (net_fault past (find self.now.names index.now))) }
        // An index of at most 16 bytes that no line maps is told, whatever memory there is.
        ensures told { IfErr result (λ e. length index.now ≤ 16 → find self.now.names index.now ≡ None → e ≡ Stop.At Fault.UnknownIndex) }
    {
        let key = Name::copy_of(alloc, index)?;
        match self.names.get(key) {
            Some(name) => {
                let copy = Name::copy_of(alloc, name.as_bytes())?;
                Ok(copy)
            }
            None => Err(Stop::At(Fault::UnknownIndex)),
        }
    }

    /// The net that a word refers to: the name of its index, or the word itself as a name.
    fn net_named(&self, alloc: Global, reference: &[u8]) -> Result<Name, Stop>
        requires { IsReader self.now }
        ensures ok { IfOk result (λ n. (past : List Row) → Holds self.now past → net_named past reference.now ≡ Some n) }
        ensures err { IfErr result (λ e. (past : List Row) → Holds self.now past → Stops e (net_fault past (net_named past reference.now))) }
        // An index of at most 16 bytes that no line maps is told, whatever memory there is.
        ensures told { IfErr result (λ e. length reference.now ≤ 16 → is_index reference.now ≡ true → find self.now.names reference.now ≡ None → e ≡ Stop.At Fault.UnknownIndex) }
    {
        if is_index(reference) {
            return self.indexed(alloc, reference);
        }
        let name = name_of(alloc, reference)?;
        Ok(name)
    }

    /// Puts a wire last, whose net is new.
    fn add_wire(&mut self, alloc: Global, net: Name, total: Micro) -> Result<(), Stop>
        requires kept { IsReader self.old }
        requires amount { IsAmount total }
        ensures kept { OnOk result (IsReader self.new) }
        ensures ok { OnOk result (Adds self.old self.new net total) }
        ensures err { IfErr result (λ e. StopsAtNet e (list_any (of_net net) self.old.wires.items)) }
        // A second net whose name has at most 16 bytes is told, whatever memory there is.
        ensures told { IfErr result (λ e. length net ≤ 16 → list_any (of_net net) self.old.wires.items ≡ true → e ≡ Stop.At Fault.TwoNets) }
    {
        let key = Name::copy_of(alloc, net.as_bytes())?;
        if self.nets.insert(key, ())?.is_some() {
            return Err(Stop::At(Fault::TwoNets));
        }
        self.wires.push(Wire { net, total })?;
        Ok(())
    }

    /// Begins a block of the net that a word refers to, with this total.
    fn begin_net(&mut self, alloc: Global, reference: &[u8], total: &[u8]) -> Result<(), Stop>
        requires { IsReader self.old }
        ensures kept { OnOk result (IsReader self.new) }
        ensures ok { OnOk result ((past : List Row) → Holds self.old past → Begins self.old self.new past reference.now total.now) }
        ensures err { IfErr result (λ e. (past : List Row) → Holds self.old past → Stops e (begin_fault past (amount_of total.now (tens (unit_of past))) reference.now)) }
        // A bad total is told, whatever memory there is.
        ensures told { IfErr result (λ e. amount_of total.now (tens self.old.unit) ≡ None → e ≡ Stop.At Fault.BadLine) }
    {
        let Some(amount) = read_amount(total, self.unit.tens()) else {
            return Err(Stop::At(Fault::BadLine));
        };
        let net = self.net_named(alloc, reference)?;
        self.add_wire(alloc, net, amount)
    }

    /// Gives an index a name.
    fn map_index(&mut self, alloc: Global, index: &[u8], name: &[u8]) -> Result<(), Stop>
        requires { IsReader self.old }
        ensures kept { OnOk result (IsReader self.new) }
        ensures place { self.new.place ≡ self.old.place }
        ensures unit { self.new.unit ≡ self.old.unit }
        ensures nets { self.new.nets ≡ self.old.nets }
        ensures wires { self.new.wires ≡ self.old.wires }
        ensures names { OnOk result ((q : List ℕ) → find self.new.names q ≡ update bytes_eq (find self.old.names) index.now (Some (unescaped name.now)) q) }
        ensures err { IfErr result (λ e. e ≡ Stop.Mem) }
    {
        let key = Name::copy_of(alloc, index)?;
        let value = name_of(alloc, name)?;
        let _ = self.names.insert(key, value)?;
        Ok(())
    }

    /// Reads a line of the text whose last line has the number `last`.
    pub fn take(
        &mut self,
        alloc: Global,
        bytes: &[u8],
        line: &[Piece],
        number: u32,
        last: u32,
    ) -> Result<(), Stop>
        requires kept { IsReader self.old }
        requires inside { All (LiesIn (length bytes.now)) line.now }
        ensures kept { OnOk result (IsReader self.new) }
        ensures ok { OnOk result ((past : List Row) → Holds self.old past → Holds self.new (record { number = number; words = map (text_of bytes.now) line.now } ∷ past)) }
        ensures good { OnOk result ((past : List Row) → Holds self.old past → fault last past (record { number = number; words = map (text_of bytes.now) line.now }) ≡ None) }
        ensures err { IfErr result (λ e. (past : List Row) → Holds self.old past → Stops e (fault last past (record { number = number; words = map (text_of bytes.now) line.now }))) }
        // A fault that takes no memory to find is told, whatever memory there is.
        ensures told { IfErr result (λ e. Tells e (plain_fault (number == last && is_open (next self.old.place (says self.old.place (map (text_of bytes.now) line.now)))) (says self.old.place (map (text_of bytes.now) line.now)))) }
    {
        let said = line_says(self.place, bytes, line);
        let after = next(self.place, said);
        if number == last && is_open(after) {
            return Err(Stop::At(Fault::BadLine));
        }
        match said {
            Says::Passes
            | Says::OpensMap
            | Says::EndsNet
            | Says::OpensSection
            | Says::OpensResistance => {
                self.place = after;
                Ok(())
            }
            Says::SetsUnit(unit) => {
                self.unit = unit;
                self.place = after;
                Ok(())
            }
            Says::Maps => {
                self.map_index(alloc, word(bytes, line, 0), word(bytes, line, 1))?;
                self.place = after;
                Ok(())
            }
            Says::BeginsNet => {
                self.begin_net(alloc, word(bytes, line, 1), word(bytes, line, 2))?;
                self.place = after;
                Ok(())
            }
            Says::Distributes => Err(Stop::At(Fault::Distributed)),
            Says::Wrong => Err(Stop::At(Fault::BadLine)),
        }
    }
}
