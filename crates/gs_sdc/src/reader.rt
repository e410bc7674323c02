//! The reader's state, and its steps.
#![tactic(auto)]

ghost use Rattle.std.specs.Prelude.{◌≡◌, ◌<◌, ◌∷◌, ℕ, List, [], None, Some, length, map, true, IfOk, IfErr, IfSome, OnOk};
ghost use Rattle.std.specs.List.{All};
ghost use Rattle.std.specs.Option.{is_some, option_map};
ghost use Rattle.gs_amount.specs.Amount.{IsLimited};
ghost use Rattle.gs_sdc.specs.Front.{reading_of};
ghost use Rattle.gs_sdc.specs.Token.{token_of};
ghost use Rattle.gs_sdc.specs.Reader.{Holds, IsReader, Stops, finished};
ghost use Rattle.gs_sdc.specs.Reads.{HasNumbers, IsOf, NamesInside, names_of, reading_is};
ghost use Rattle.gs_sdc.specs.Sdc.{Item, clock, fault_by};
ghost use Rattle.gs_sdc.specs.Command as command;
ghost use Rattle.gs_text.specs.Pieces.{LiesIn};

use crate::command::Quantity;
use crate::constraints::{Clock, Constraints, Drivers, PortValues};
use crate::error::{Fault, SdcErr, Stop};
use crate::given::{Driven, Values, copy_names};
use crate::reading::{Reading, read_command};
use gs_design::Units;
use gs_quantity::Micro;
use gs_text::Piece;
use std::alloc::{AllocError, Global};

/// What the commands so far say.
#[derive(Drop)]
pub struct Reader {
    pub clock: Option<Clock>,
    pub inputs: Values,
    pub outputs: Values,
    pub loads: Values,
    pub drivers: Driven,
}

impl Reader {
    /// A reader before any command. It finds ports in `buckets` buckets of each kind.
    pub fn new(alloc: Global, buckets: usize) -> Result<Reader, AllocError>
        requires { 0 < buckets }
        ensures kept { IfOk result IsReader }
        ensures holds { IfOk result (λ r. Holds r []) }
    {
        let inputs = Values::new(alloc, buckets)?;
        let outputs = Values::new(alloc, buckets)?;
        let loads = Values::new(alloc, buckets)?;
        let drivers = Driven::new(alloc, buckets)?;
        Ok(Reader {
            clock: None,
            inputs,
            outputs,
            loads,
            drivers,
        })
    }

    /// Makes the clock, where there is none.
    fn set_clock(
        &mut self,
        alloc: Global,
        bytes: &[u8],
        period: Micro,
        names: &[Piece],
    ) -> Result<(), Stop>
        requires kept { IsReader self.old }
        requires period { IsLimited period }
        requires inside { All (LiesIn (length bytes.now)) names.now }
        ensures kept { OnOk result (IsReader self.new) }
        ensures ok { OnOk result ((past : List Item) → Holds self.old past → (number : ℕ) → Holds self.new (record { number = number; reading = Some (command.clocks period (names_of bytes.now names.now)) } ∷ past)) }
        ensures good { OnOk result ((past : List Item) → Holds self.old past → fault_by past (Some (command.clocks period (names_of bytes.now names.now))) ≡ None) }
        ensures err { IfErr result (λ e. (past : List Item) → Holds self.old past → Stops e (fault_by past (Some (command.clocks period (names_of bytes.now names.now))))) }
        // A second clock is told, whatever memory there is.
        ensures told { IfErr result (λ e. is_some self.old.clock ≡ true → e ≡ Stop.At Fault.TwoClocks) }
    {
        if self.clock.is_some() {
            return Err(Stop::At(Fault::TwoClocks));
        }
        let names = copy_names(alloc, bytes, names)?;
        self.clock = Some(Clock { period, names });
        Ok(())
    }

    /// Gives each port of a command the same amount.
    fn give(
        &mut self,
        alloc: Global,
        bytes: &[u8],
        quantity: Quantity,
        amount: Micro,
        names: &[Piece],
    ) -> Result<(), Stop>
        requires kept { IsReader self.old }
        requires amount { IsOf quantity amount }
        requires inside { All (LiesIn (length bytes.now)) names.now }
        ensures kept { OnOk result (IsReader self.new) }
        ensures ok { OnOk result ((past : List Item) → Holds self.old past → (number : ℕ) → Holds self.new (record { number = number; reading = Some (command.gives quantity amount (names_of bytes.now names.now)) } ∷ past)) }
        ensures good { OnOk result ((past : List Item) → Holds self.old past → fault_by past (Some (command.gives quantity amount (names_of bytes.now names.now))) ≡ None) }
        ensures err { IfErr result (λ e. (past : List Item) → Holds self.old past → Stops e (fault_by past (Some (command.gives quantity amount (names_of bytes.now names.now))))) }
    {
        match quantity {
            Quantity::InputDelay => self.inputs.give(alloc, bytes, names, amount),
            Quantity::OutputDelay => self.outputs.give(alloc, bytes, names, amount),
            Quantity::PortLoad => self.loads.give(alloc, bytes, names, amount),
        }
    }

    /// Reads a command that says this.
    fn take_reading(
        &mut self,
        alloc: Global,
        bytes: &[u8],
        reading: &Reading<'_>,
    ) -> Result<(), Stop>
        requires kept { IsReader self.old }
        requires numbers { HasNumbers reading.now }
        requires inside { NamesInside bytes.now reading.now }
        ensures kept { OnOk result (IsReader self.new) }
        ensures ok { OnOk result ((past : List Item) → Holds self.old past → (number : ℕ) → Holds self.new (record { number = number; reading = Some (reading_is bytes.now reading.now) } ∷ past)) }
        ensures good { OnOk result ((past : List Item) → Holds self.old past → fault_by past (Some (reading_is bytes.now reading.now)) ≡ None) }
        ensures err { IfErr result (λ e. (past : List Item) → Holds self.old past → Stops e (fault_by past (Some (reading_is bytes.now reading.now)))) }
        // What isn't built is told, whatever memory there is.
        ensures told { IfErr result (λ e. reading_is bytes.now reading.now ≡ command.not_built → e ≡ Stop.At Fault.NotBuilt) }
    {
        match reading {
            Reading::Passes => Ok(()),
            Reading::NotBuilt => Err(Stop::At(Fault::NotBuilt)),
            Reading::Clocks(period, names) => self.set_clock(alloc, bytes, *period, names),
            Reading::Gives(quantity, amount, names) => {
                self.give(alloc, bytes, *quantity, *amount, names)
            }
            Reading::Drives(driver, names) => self.drivers.drive(alloc, bytes, names, driver),
        }
    }

    /// Reads a command that says this, or is of no form.
    fn take(
        &mut self,
        alloc: Global,
        bytes: &[u8],
        reading: &Option<Reading<'_>>,
    ) -> Result<(), Stop>
        requires kept { IsReader self.old }
        requires numbers { IfSome reading.now HasNumbers }
        requires inside { IfSome reading.now (NamesInside bytes.now) }
        ensures kept { OnOk result (IsReader self.new) }
        ensures ok { OnOk result ((past : List Item) → Holds self.old past → (number : ℕ) → Holds self.new (record { number = number; reading = option_map (reading_is bytes.now) reading.now } ∷ past)) }
        ensures good { OnOk result ((past : List Item) → Holds self.old past → fault_by past (option_map (reading_is bytes.now) reading.now) ≡ None) }
        ensures err { IfErr result (λ e. (past : List Item) → Holds self.old past → Stops e (fault_by past (option_map (reading_is bytes.now) reading.now))) }
        // A command of no form is told, whatever memory there is.
        ensures told { IfErr result (λ e. reading.now ≡ None → e ≡ Stop.At Fault.BadLine) }
    {
        match reading {
            None => Err(Stop::At(Fault::BadLine)),
            Some(reading) => self.take_reading(alloc, bytes, reading),
        }
    }

    /// Reads the pieces of a command, with values in these units.
    pub fn read<'a>(
        &mut self,
        alloc: Global,
        bytes: &'a [u8],
        units: Units,
        pieces: &'a [Piece],
    ) -> Result<(), Stop>
        requires kept { IsReader self.old }
        requires inside { All (LiesIn (length bytes.now)) pieces.now }
        ensures kept { OnOk result (IsReader self.new) }
        ensures ok { OnOk result ((past : List Item) → Holds self.old past → (number : ℕ) → Holds self.new (record { number = number; reading = reading_of units (map (token_of bytes.now) pieces.now) } ∷ past)) }
        ensures good { OnOk result ((past : List Item) → Holds self.old past → fault_by past (reading_of units (map (token_of bytes.now) pieces.now)) ≡ None) }
        ensures err { IfErr result (λ e. (past : List Item) → Holds self.old past → Stops e (fault_by past (reading_of units (map (token_of bytes.now) pieces.now)))) }
    {
        match read_command(alloc, bytes, units, pieces) {
            Ok(reading) => self.take(alloc, bytes, &reading),
            Err(_) => Err(Stop::Mem),
        }
    }

    /// The constraints of a text that ends here, and has `last` lines.
    pub fn finish(self, last: u32) -> Result<Constraints, SdcErr>
        requires { IsReader self }
        ensures { result ≡ finished last self }
    {
        let Reader {
            clock,
            inputs,
            outputs,
            loads,
            drivers,
        } = self;
        let Some(Clock { period, names }) = clock else {
            return Err(SdcErr::NoClock { i: last });
        };
        Ok(Constraints {
            period,
            clock_ports: names,
            inputs: PortValues::from_vec(inputs.into_list()),
            outputs: PortValues::from_vec(outputs.into_list()),
            loads: PortValues::from_vec(loads.into_list()),
            drivers: Drivers::from_vec(drivers.into_list()),
            max_area: None,
        })
    }
}
