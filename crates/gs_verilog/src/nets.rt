//! The nets of a netlist, by name.
#![tactic(auto)]

ghost use Rattle.std.specs.Prelude.{◌≡◌, ◌<◌, ◌^◌, [], length, IfErr, IfOk};
ghost use Rattle.gs_verilog.specs.Index.{FindsNets, Puts};
ghost use Rattle.gs_drive.specs.declared.machine.StepErr.{StepErr};

use crate::error::Stop;
use crate::names::NameMap;
use gs_text::Name;
use std::alloc::{AllocError, Global};

/// The names of the nets in the order of their first appearance, and the number of each.
#[derive(Drop)]
pub struct Nets<'a> {
    pub names: Vec<Name>,
    pub places: NameMap<'a>,
}

impl<'a> Nets<'a> {
    /// No nets. Their names will be found in `count` buckets.
    pub fn new(alloc: Global, count: usize) -> Result<Nets<'a>, AllocError>
        requires { 0 < count }
        ensures names { IfOk result (λ n. n.names.items ≡ []) }
        ensures finds { IfOk result FindsNets }
    {
        let places = NameMap::new(alloc, count)?;
        Ok(Nets {
            names: Vec::new(alloc),
            places,
        })
    }

    /// The number of a net, which a new name puts last.
    pub fn put(&mut self, alloc: Global, name: &'a [u8]) -> Result<u32, Stop>
        requires finds { FindsNets self.old }
        requires room { length self.old.names.items < 2 ^ 32 }
        ensures ok { IfOk result (λ n. Puts self.old self.new name.now n) }
        ensures err { IfErr result (λ e. e ≡ StepErr.Full) }
    {
        let count = self.names.len() as u32;
        let place = self.places.get_or_insert(name, count)?;
        if place == count {
            let copy = Name::copy_of(alloc, name)?;
            self.names.push(copy)?;
        }
        Ok(place)
    }
}
