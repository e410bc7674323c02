//! The reader as the machine that the driver hands tokens to.
#![tactic(auto)]

use crate::error::{Rule, Stop};
use crate::machine::{class_of, next};
use crate::netlist::Netlist;
use crate::reader::Reader;
use gs_drive::{Fault, Machine, StepErr};
use gs_text::Kind;
use std::alloc::{AllocError, Global};

impl<'a> Machine<'a> for Reader<'a> {
    ghost use Rattle.gs_verilog.specs.Index.{IsIndexed, state_of};
    ghost use Rattle.gs_verilog.specs.Machine.{State as NetlistState, end_of, named_before, no_rule, start, step as step_by};
    ghost use Rattle.gs_verilog.specs.Text.{VerilogText};
    ghost use Rattle.gs_verilog.specs.Token.{Token as NetlistToken, token as netlist_token};
    ghost use Rattle.gs_verilog.specs.Tree.{IsForm};

    type Out = Netlist;

    type Rule = Rule;

    ghost State = { NetlistState };

    ghost Token = { NetlistToken };

    ghost token = { netlist_token };

    ghost begin = { start };

    ghost step = { step_by named_before };

    ghost end = { end_of };

    ghost loose = { step_by no_rule };

    ghost Form = { IsForm };

    ghost Text = { VerilogText };

    ghost Breaks = { λ _ _. Unit {0} };

    ghost state = { state_of };

    ghost Keeps = { λ r. IsIndexed r.built };

    fn start(alloc: Global, len: usize) -> Result<Reader<'a>, AllocError> {
        // A bucket for each 256 to 512 bytes, in which stand some four to eight instances, and as many new nets: less than one node of an ordered
        // map. Their number is a power of two, so that each has some of the hashes.
        Reader::new(alloc, (len / 512 + 1).next_power_of_two())
    }

    fn take(&mut self, alloc: Global, kind: Kind, text: &'a [u8], _line: u32) -> Result<(), Stop> {
        match next(self.place, class_of(kind, text)) {
            Some(to) => self.enter(alloc, to, text),
            None => Err(StepErr::Refused(Fault::Bad)),
        }
    }

    fn finish(self, alloc: Global) -> Result<Option<Netlist>, AllocError> {
        self.into_netlist(alloc)
    }
}
