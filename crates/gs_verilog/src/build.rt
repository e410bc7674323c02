//! The netlist so far, with the maps by which its names are found.
#![tactic(auto)]

ghost use Rattle.std.specs.Prelude.{◌≡◌, ◌<◌, ◌^◌, false, true, length, IfOk, IfErr};
ghost use Rattle.gs_verilog.specs.Index.{IsIndexed, Refuses, built, linked};
ghost use Rattle.gs_verilog.specs.Machine.{connected, declared, empty, has_inst, has_pin, has_port, with_inst, with_link, with_port};
ghost use Rattle.gs_verilog.specs.declared.machine.Role.{Role};
ghost use Rattle.gs_verilog.specs.declared.error.Rule.{Rule};
ghost use Rattle.gs_drive.specs.declared.machine.Fault.{Fault};
ghost use Rattle.gs_drive.specs.declared.machine.StepErr.{StepErr};

use crate::error::{Stop, twice};
use crate::names::NameMap;
use crate::nets::Nets;
use crate::parts::{Link, Links, Port, RawInst};
use gs_text::Name;
use std::alloc::{AllocError, Global};
use std::collections::BTreeSet;

/// The netlist so far. Names are found by maps that borrow the text.
#[derive(Drop)]
pub struct Builder<'a> {
    /// The module's name.
    pub name: &'a [u8],
    pub nets: Nets<'a>,
    pub ports: Vec<Port>,
    /// The numbers of the nets that have a direction.
    pub directed: BTreeSet<u32>,
    pub insts: Vec<RawInst>,
    /// The numbers of the instances, by name.
    pub named: NameMap<'a>,
    /// For each pin's name, how many instances there were when it was connected last.
    pub pins: NameMap<'a>,
}

/// Puts a connection to the last instance.
fn add_link(insts: &mut Vec<RawInst>, link: Link) -> Result<(), Stop>
    requires { 0 < length insts.old.items }
    ensures ok { IfOk result (λ _. insts.new.items ≡ with_link insts.old.items link) }
    ensures err { IfErr result (λ e. e ≡ StepErr.Full) }
{
    let count = insts.len();
    let last = &mut insts[count - 1];
    last.links.push(link)?;
    Ok(())
}

impl<'a> Builder<'a> {
    /// The netlist without a name, a net or an instance. The names of nets will be found in `count` buckets,
    /// and those of instances in as many.
    pub fn new(alloc: Global, count: usize) -> Result<Builder<'a>, AllocError>
        requires { 0 < count }
        ensures indexed { IfOk result IsIndexed }
        ensures value { IfOk result (λ b. built b ≡ empty) }
    {
        let nets = Nets::new(alloc, count)?;
        let named = NameMap::new(alloc, count)?;
        let pins = NameMap::new(alloc, 1)?;
        Ok(Builder {
            name: &[],
            nets,
            ports: Vec::new(alloc),
            directed: BTreeSet::new(alloc),
            insts: Vec::new(alloc),
            named,
            pins,
        })
    }

    /// A name gets a direction, which it may not have already.
    pub fn direct(&mut self, alloc: Global, input: bool, name: &'a [u8]) -> Result<(), Stop>
        requires indexed { IsIndexed self.old }
        requires room { length self.old.nets.names.items < 2 ^ 32 }
        ensures indexed { IfOk result (λ _. IsIndexed self.new) }
        ensures ok { IfOk result (λ _. built self.new ≡ with_port input (built self.old) name.now) }
        ensures free { IfOk result (λ _. has_port (built self.old) name.now ≡ false) }
        ensures err { IfErr result (λ e. Refuses (has_port (built self.old) name.now) e) }
    {
        let net = self.nets.put(alloc, name)?;
        if !self.directed.insert(net)? {
            return Err(twice());
        }
        self.ports.push(Port { net, input })?;
        Ok(())
    }

    /// A name is declared as a wire.
    pub fn wire(&mut self, alloc: Global, name: &'a [u8]) -> Result<(), Stop>
        requires indexed { IsIndexed self.old }
        requires room { length self.old.nets.names.items < 2 ^ 32 }
        ensures indexed { IfOk result (λ _. IsIndexed self.new) }
        ensures ok { IfOk result (λ _. built self.new ≡ declared Role.Wire (built self.old) name.now) }
        ensures err { IfErr result (λ e. e ≡ StepErr.Full) }
    {
        self.nets.put(alloc, name)?;
        Ok(())
    }

    /// An instance begins, whose name no earlier instance may have.
    pub fn begin(&mut self, alloc: Global, cell: &[u8], name: &'a [u8]) -> Result<(), Stop>
        requires indexed { IsIndexed self.old }
        requires few { length self.old.insts.items < 2 ^ 32 }
        ensures indexed { IfOk result (λ _. IsIndexed self.new) }
        ensures ok { IfOk result (λ _. built self.new ≡ with_inst (built self.old) cell.now name.now) }
        ensures free { IfOk result (λ _. has_inst (built self.old) name.now ≡ false) }
        ensures err { IfErr result (λ e. Refuses (has_inst (built self.old) name.now) e) }
        // A second instance of a name is told, whatever memory there is.
        ensures told { IfErr result (λ e. has_inst (built self.old) name.now ≡ true → e ≡ StepErr.Refused (Fault.Broken Rule.NamesDiffer)) }
    {
        let count = self.insts.len() as u32;
        if self.named.insert(name, count)?.is_some() {
            return Err(twice());
        }
        let inst = RawInst {
            name: Name::copy_of(alloc, name)?,
            cell: Name::copy_of(alloc, cell)?,
            links: Links::empty(alloc),
        };
        self.insts.push(inst)?;
        Ok(())
    }

    /// Whether the last instance has the pin.
    pub fn has_pin(&self, pin: &'a [u8]) -> bool
        requires indexed { IsIndexed self.now }
        ensures { result ≡ has_pin (built self.now) pin.now }
    {
        match self.pins.get(pin) {
            Some(count) => count as usize == self.insts.len(),
            None => false,
        }
    }

    /// The last instance, where there is one, gets a pin at a net's number.
    fn link(&mut self, alloc: Global, pin: &'a [u8], net: u32) -> Result<(), Stop>
        requires indexed { IsIndexed self.old }
        requires few { length self.old.insts.items < 2 ^ 32 }
        ensures indexed { IfOk result (λ _. IsIndexed self.new) }
        ensures ok { IfOk result (λ _. built self.new ≡ linked (built self.old) pin.now net) }
        ensures err { IfErr result (λ e. e ≡ StepErr.Full) }
    {
        let count = self.insts.len();
        if count == 0 {
            return Ok(());
        }
        let name = Name::copy_of(alloc, pin)?;
        self.pins.insert(pin, count as u32)?;
        add_link(&mut self.insts, Link { pin: name, net })?;
        Ok(())
    }

    /// The last instance gets a connection.
    pub fn connect(&mut self, alloc: Global, pin: &'a [u8], net: &'a [u8]) -> Result<(), Stop>
        requires indexed { IsIndexed self.old }
        requires room { length self.old.nets.names.items < 2 ^ 32 }
        requires few { length self.old.insts.items < 2 ^ 32 }
        ensures indexed { IfOk result (λ _. IsIndexed self.new) }
        ensures ok { IfOk result (λ _. built self.new ≡ connected (built self.old) pin.now net.now) }
        ensures err { IfErr result (λ e. e ≡ StepErr.Full) }
    {
        let number = self.nets.put(alloc, net)?;
        self.link(alloc, pin, number)?;
        Ok(())
    }
}
