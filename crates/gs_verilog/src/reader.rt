//! The reader: a place in the form, and the netlist so far.
#![tactic(auto)]

ghost use Rattle.std.specs.Prelude.{◌≡◌, true, false, ◌<◌, ◌^◌, length, IfOk, IfErr, Ok, Some};
ghost use Rattle.gs_drive.specs.declared.machine.Fault.{Fault};
ghost use Rattle.gs_drive.specs.declared.machine.StepErr.{StepErr};
ghost use Rattle.gs_drive.specs.Machine.{StepFails};
ghost use Rattle.gs_verilog.specs.Circuit.{IsNetlist};
ghost use Rattle.gs_verilog.specs.declared.machine.Place.{Place};
ghost use Rattle.gs_verilog.specs.Index.{IsIndexed, built, state_of};
ghost use Rattle.gs_verilog.specs.declared.error.Rule.{Rule};
ghost use Rattle.gs_verilog.specs.Machine.{arrived, end_of, has_pin, named_before, start};

use crate::build::Builder;
use crate::error::{Stop, twice};
use crate::machine::{Place, Role};
use crate::netlist::Netlist;
use crate::parts::{Ports, RawInsts};
use gs_text::{Name, Names};
use std::alloc::{AllocError, Global};

/// A reader of tokens.
#[derive(Drop)]
pub struct Reader<'a> {
    pub place: Place,
    pub built: Builder<'a>,
    /// The cell that was read last.
    pub cell: &'a [u8],
    /// The pin that was read last.
    pub pin: &'a [u8],
}

impl<'a> Reader<'a> {
    /// A reader before the first token. The names of nets will be found in `count` buckets, and those of instances
    /// in as many.
    pub fn new(alloc: Global, count: usize) -> Result<Reader<'a>, AllocError>
        requires { 0 < count }
        ensures indexed { IfOk result (λ r. IsIndexed r.built) }
        ensures value { IfOk result (λ r. state_of r ≡ start) }
    {
        let built = Builder::new(alloc, count)?;
        Ok(Reader {
            place: Place::Start,
            built,
            cell: &[],
            pin: &[],
        })
    }

    /// Keeps a pin's name, which the last instance may not have.
    fn keep_pin(&mut self, text: &'a [u8]) -> Result<(), Stop>
        requires indexed { IsIndexed self.old.built }
        ensures free { IfOk result (λ _. has_pin (built self.old.built) text.now ≡ false) }
        ensures ok { IfOk result (λ _. state_of self.new ≡ record (state_of self.old) { pin = text.now }) }
        ensures built { self.new.built ≡ self.old.built }
        ensures err { IfErr result (λ e. (e ≡ StepErr.Refused (Fault.Broken Rule.NamesDiffer)) × (has_pin (built self.old.built) text.now ≡ true)) }
    {
        if self.built.has_pin(text) {
            return Err(twice());
        }
        self.pin = text;
        Ok(())
    }

    /// Keeps what a token that the form allows tells at its place.
    fn keep(&mut self, alloc: Global, text: &'a [u8]) -> Result<(), Stop>
        requires indexed { IsIndexed self.old.built }
        requires room { length self.old.built.nets.names.items < 2 ^ 32 }
        requires few { length self.old.built.insts.items < 2 ^ 32 }
        ensures indexed { IfOk result (λ _. IsIndexed self.new.built) }
        ensures ok { IfOk result (λ _. (to : Place) → arrived named_before (Some to) (state_of self.old) text.now ≡ Ok (record (state_of self.new) { place = to })) }
        ensures err { IfErr result (λ e. (to : Place) → StepFails e (arrived named_before (Some to) (state_of self.old) text.now)) }
    {
        match self.place {
            Place::Title => {
                self.built.name = text;
                Ok(())
            }
            Place::Items => {
                self.cell = text;
                Ok(())
            }
            Place::Names(Role::Input) => self.built.direct(alloc, true, text),
            Place::Names(Role::Output) => self.built.direct(alloc, false, text),
            Place::Names(Role::Wire) => self.built.wire(alloc, text),
            Place::Instance => self.built.begin(alloc, self.cell, text),
            Place::Pin => self.keep_pin(text),
            Place::Net => self.built.connect(alloc, self.pin, text),
            Place::Start
            | Place::Titled
            | Place::Header
            | Place::Headed
            | Place::HeaderNext
            | Place::HeaderDone
            | Place::Named(_)
            | Place::InstanceNamed
            | Place::Pins
            | Place::PinNamed
            | Place::NetNamed
            | Place::Linked
            | Place::NextPin
            | Place::Closed
            | Place::End => Ok(()),
        }
    }

    /// Takes a token that the form allows, and goes on to the next place.
    pub fn enter(&mut self, alloc: Global, to: Place, text: &'a [u8]) -> Result<(), Stop>
        requires indexed { IsIndexed self.old.built }
        requires room { length self.old.built.nets.names.items < 2 ^ 32 }
        requires few { length self.old.built.insts.items < 2 ^ 32 }
        ensures indexed { IfOk result (λ _. IsIndexed self.new.built) }
        ensures ok { IfOk result (λ _. arrived named_before (Some to) (state_of self.old) text.now ≡ Ok (state_of self.new)) }
        ensures err { IfErr result (λ e. StepFails e (arrived named_before (Some to) (state_of self.old) text.now)) }
    {
        self.keep(alloc, text)?;
        self.place = to;
        Ok(())
    }

    /// The netlist, where the tokens so far are a whole one.
    pub fn into_netlist(self, alloc: Global) -> Result<Option<Netlist>, AllocError>
        requires { IsNetlist (built self.built) }
        ensures ok { IfOk result (λ found. found ≡ end_of (state_of self.entry)) }
        // Memory runs out only for the name of a whole one: that the tokens end early is told, whatever memory there is.
        ensures told { IfErr result (λ _. self.entry.place ≡ Place.End) }
    {
        let Reader { place, built, .. } = self;
        if place != Place::End {
            return Ok(None);
        }
        let Builder {
            name,
            nets,
            ports,
            insts,
            ..
        } = built;
        Ok(Some(Netlist {
            name: Name::copy_of(alloc, name)?,
            ports: Ports::from_vec(ports),
            nets: Names::from_vec(nets.names),
            insts: RawInsts::from_vec(insts),
        }))
    }
}
