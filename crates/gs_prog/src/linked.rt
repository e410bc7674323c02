//! Designs that tests link from texts.

use gs_design::Design;
use gs_lib::read_library;
use gs_libtree::read_tree;
use gs_link::link;
use gs_sdc::read_sdc;
use gs_spef::read_spef;
use gs_survey::LinkErr;
use gs_verilog::read_netlist;
use std::alloc::Global;
use std::test::Fail;

/// The short texts of a design.
#[derive(Clone, Copy)]
pub(crate) struct Texts<'a> {
    pub(crate) library: &'a [u8],
    pub(crate) verilog: &'a [u8],
    pub(crate) spef: &'a [u8],
    pub(crate) sdc: &'a [u8],
}

const LIMIT: usize = 1 << 16;

/// What the link answers for these texts.
pub(crate) fn linked(alloc: Global, texts: &Texts) -> Result<Result<Design, LinkErr>, Fail> {
    if texts.library.len() > LIMIT
        || texts.verilog.len() > LIMIT
        || texts.spef.len() > LIMIT
        || texts.sdc.len() > LIMIT
    {
        return Err(Fail::new("a text of tests is short"));
    }
    let root = read_tree(alloc, texts.library)?;
    let library = read_library(alloc, &root)?;
    let netlist = read_netlist(alloc, texts.verilog)?;
    let wires = read_spef(alloc, texts.spef)?;
    let limits = read_sdc(alloc, texts.sdc, library.units)?;
    Ok(link(alloc, netlist, library, &wires, &limits))
}

/// The design of these texts.
pub(crate) fn design_of(alloc: Global, texts: &Texts) -> Result<Design, Fail> {
    match linked(alloc, texts)? {
        Ok(design) => Ok(design),
        Err(_) => Err(Fail::new("the texts make a design")),
    }
}
