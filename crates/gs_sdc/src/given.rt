//! What ports are given, each once of a kind.
#![tactic(auto)]

ghost use Rattle.std.specs.Prelude.{◌≡◌, ◌<◌, ◌≤◌, ◌∷◌, ◌++◌, ℕ, List, [], false, true, length, map, IfOk, IfErr, OnOk, Some};
ghost use Rattle.std.specs.List.{All};
ghost use Rattle.std.specs.Option.{is_some, option_map};
ghost use Rattle.gs_names.specs.Names.{HasBuckets, find};
ghost use Rattle.gs_sdc.specs.Reader.{HasPorts, IsDriven, IsValues, StopsAgain, is_named};
ghost use Rattle.gs_sdc.specs.Reads.{names_of, word_is};
ghost use Rattle.gs_sdc.specs.Sdc.{driven, repeats, valued};
ghost use Rattle.gs_sdc.specs.Terms.{driver_port, value_port};
ghost use Rattle.gs_text.specs.Pieces.{LiesIn, text_of};

use crate::constraints::{DriverSpec, PortValue};
use crate::error::{Fault, Stop};
use crate::reading::Driver;
use gs_names::NameMap;
use gs_quantity::Micro;
use gs_text::{Name, Names, Piece, text_of};
use std::alloc::{AllocError, Global};

/// Values of ports that differ.
#[derive(Drop)]
pub struct Values {
    pub ports: NameMap<()>,
    pub list: Vec<PortValue>,
}

/// Driving cells of ports that differ.
#[derive(Drop)]
pub struct Driven {
    pub ports: NameMap<()>,
    pub list: Vec<DriverSpec>,
}

/// The names of pieces.
pub fn copy_names(alloc: Global, bytes: &[u8], pieces: &[Piece]) -> Result<Names, AllocError>
    requires { All (LiesIn (length bytes.now)) pieces.now }
    ensures { IfOk result (λ v. v ≡ names_of bytes.now pieces.now) }
{
    let mut names = Vec::new(alloc);
    for piece in pieces {
        names.push(Name::copy_of(alloc, text_of(bytes, piece))?)?;
    }
    Ok(Names::from_vec(names))
}

/// The name that a word writes, where there is one.
fn copy_given(alloc: Global, word: Option<&[u8]>) -> Result<Option<Name>, AllocError>
    ensures { IfOk result (λ o. o ≡ option_map word_is word.entry) }
{
    match word {
        None => Ok(None),
        Some(word) => {
            let name = Name::copy_of(alloc, word)?;
            Ok(Some(name))
        }
    }
}

/// Puts a port among those that have a value, where it isn't there.
fn claim(ports: &mut NameMap<()>, alloc: Global, port: &[u8]) -> Result<(), Stop>
    requires { HasBuckets ports.old }
    ensures buckets { OnOk result (HasBuckets ports.new) }
    ensures ok { OnOk result ((names : List (List ℕ)) → HasPorts (λ q. is_some (find ports.old q)) names → HasPorts (λ q. is_some (find ports.new q)) (names ++ port.now ∷ [])) }
    ensures fresh { OnOk result (is_some (find ports.old port.now) ≡ false) }
    ensures err { IfErr result (λ e. StopsAgain e (is_some (find ports.old port.now))) }
    // A second value of a port whose name has at most 16 bytes is told, whatever memory there is.
    ensures told { IfErr result (λ e. length port.now ≤ 16 → is_some (find ports.old port.now) ≡ true → e ≡ Stop.At Fault.TwoValues) }
{
    let key = Name::copy_of(alloc, port)?;
    if ports.insert(key, ())?.is_some() {
        return Err(Stop::At(Fault::TwoValues));
    }
    Ok(())
}

impl Values {
    /// No values. Their ports will be found in `buckets` buckets.
    pub fn new(alloc: Global, buckets: usize) -> Result<Values, AllocError>
        requires { 0 < buckets }
        ensures kept { IfOk result IsValues }
        ensures empty { IfOk result (λ v. v.list.items ≡ []) }
    {
        let ports = NameMap::new(alloc, buckets)?;
        Ok(Values {
            ports,
            list: Vec::new(alloc),
        })
    }

    /// Gives a port a value, where it has none.
    fn give_one(&mut self, alloc: Global, port: &[u8], amount: Micro) -> Result<(), Stop>
        requires { IsValues self.old }
        ensures kept { OnOk result (IsValues self.new) }
        ensures list { OnOk result (self.new.list.items ≡ self.old.list.items ++ record { port = port.now; value = amount } ∷ []) }
        ensures fresh { OnOk result (is_named port.now (map value_port self.old.list.items) ≡ false) }
        ensures err { IfErr result (λ e. StopsAgain e (is_named port.now (map value_port self.old.list.items))) }
    {
        claim(&mut self.ports, alloc, port)?;
        let name = Name::copy_of(alloc, port)?;
        self.list.push(PortValue {
            port: name,
            value: amount,
        })?;
        Ok(())
    }

    /// Gives each port of a command the same value.
    pub fn give(
        &mut self,
        alloc: Global,
        bytes: &[u8],
        names: &[Piece],
        amount: Micro,
    ) -> Result<(), Stop>
        requires kept { IsValues self.old }
        requires inside { All (LiesIn (length bytes.now)) names.now }
        ensures kept { OnOk result (IsValues self.new) }
        ensures list { OnOk result (self.new.list.items ≡ self.old.list.items ++ valued amount (names_of bytes.now names.now)) }
        ensures fresh { OnOk result (repeats (map value_port self.old.list.items) (names_of bytes.now names.now) ≡ false) }
        ensures err { IfErr result (λ e. StopsAgain e (repeats (map value_port self.old.list.items) (names_of bytes.now names.now))) }
    {
        for piece in names {
            match self.give_one(alloc, text_of(bytes, piece), amount) {
                Ok(()) => {}
                Err(stop) => return Err(stop),
            }
        }
        Ok(())
    }
}

impl Values {
    /// The values, in the order in which they were given.
    pub fn into_list(self) -> Vec<PortValue>
        ensures { result ≡ self.list }
    {
        let Values { ports: _, list } = self;
        list
    }
}

impl Driven {
    /// The driving cells, in the order in which they were given.
    pub fn into_list(self) -> Vec<DriverSpec>
        ensures { result ≡ self.list }
    {
        let Driven { ports: _, list } = self;
        list
    }

    /// No driving cells. Their ports will be found in `buckets` buckets.
    pub fn new(alloc: Global, buckets: usize) -> Result<Driven, AllocError>
        requires { 0 < buckets }
        ensures kept { IfOk result IsDriven }
        ensures empty { IfOk result (λ d. d.list.items ≡ []) }
    {
        let ports = NameMap::new(alloc, buckets)?;
        Ok(Driven {
            ports,
            list: Vec::new(alloc),
        })
    }

    /// Gives a port a driving cell, where it has none.
    fn drive_one(&mut self, alloc: Global, port: &[u8], driver: &Driver<'_>) -> Result<(), Stop>
        requires { IsDriven self.old }
        ensures kept { OnOk result (IsDriven self.new) }
        ensures list { OnOk result (self.new.list.items ≡ self.old.list.items ++ record { port = port.now; cell = driver.now.cell.now; pin = option_map word_is driver.now.pin; rise = driver.now.rise; fall = driver.now.fall } ∷ []) }
        ensures fresh { OnOk result (is_named port.now (map driver_port self.old.list.items) ≡ false) }
        ensures err { IfErr result (λ e. StopsAgain e (is_named port.now (map driver_port self.old.list.items))) }
    {
        claim(&mut self.ports, alloc, port)?;
        let name = Name::copy_of(alloc, port)?;
        let cell = Name::copy_of(alloc, driver.cell)?;
        let pin = copy_given(alloc, driver.pin)?;
        self.list.push(DriverSpec {
            port: name,
            cell,
            pin,
            rise: driver.rise,
            fall: driver.fall,
        })?;
        Ok(())
    }

    /// Gives each port of a command the same driving cell.
    pub fn drive(
        &mut self,
        alloc: Global,
        bytes: &[u8],
        names: &[Piece],
        driver: &Driver<'_>,
    ) -> Result<(), Stop>
        requires kept { IsDriven self.old }
        requires inside { All (LiesIn (length bytes.now)) names.now }
        ensures kept { OnOk result (IsDriven self.new) }
        ensures list { OnOk result (self.new.list.items ≡ self.old.list.items ++ driven driver.now.cell.now (option_map word_is driver.now.pin) driver.now.rise driver.now.fall (names_of bytes.now names.now)) }
        ensures fresh { OnOk result (repeats (map driver_port self.old.list.items) (names_of bytes.now names.now) ≡ false) }
        ensures err { IfErr result (λ e. StopsAgain e (repeats (map driver_port self.old.list.items) (names_of bytes.now names.now))) }
    {
        for piece in names {
            match self.drive_one(alloc, text_of(bytes, piece), driver) {
                Ok(()) => {}
                Err(stop) => return Err(stop),
            }
        }
        Ok(())
    }
}
