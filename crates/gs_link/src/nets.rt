//! The columns of the nets of a design.
#![tactic(auto)]

ghost use Rattle.std.specs.Prelude.{◌≡◌, IfOk, None, length, map, pos, slice_index_or};
ghost use Rattle.gs_link.specs.Columns.{driver_at, net_row};
ghost use Rattle.gs_survey.specs.Numbers.{net_name};

use crate::values::{Values, driven_at, micro_at, number_at};
use gs_design::{Driven, Driver, InstId, NetRow};
use gs_list::Rows;
use gs_survey::{Tally, copy_of};
use gs_text::{Name, Names};
use std::alloc::{AllocError, Global};

// What drives a net, whose port has this driving cell.
fn driver_of(inputs: &Tally, values: &Values, net: usize, cell: Option<Driven>) -> Driver
    requires { cell ≡ slice_index_or values.now.cells net None }
    ensures { result ≡ driver_at inputs.now values.now net }
{
    if inputs.has(net) {
        Driver::Port {
            delay: micro_at(values.delays.as_slice(), net),
            cell,
        }
    } else {
        Driver::Inst(InstId(number_at(values.gates.as_slice(), net)))
    }
}

fn row_of_net(values: &Values, net: usize, driver: Driver) -> NetRow
    ensures { result ≡ record { wire = slice_index_or values.now.wires net (pos 0); port_load = slice_index_or values.now.loads net (pos 0); driver = driver } }
{
    NetRow {
        wire: micro_at(values.wires.as_slice(), net),
        port_load: micro_at(values.loads.as_slice(), net),
        driver,
    }
}

/// The rows of the nets that are used.
pub fn find_net_rows(
    alloc: Global,
    inputs: &Tally,
    values: &Values,
    used: &[u32],
) -> Result<Rows<NetRow>, AllocError>
    ensures { IfOk result (λ r. r ≡ map (net_row inputs.now values.now) used.now) }
{
    let mut rows = Vec::with_capacity(alloc, used.len())?;
    for i in 0..used.len() {
        let net = used[i] as usize;
        let cell = driven_at(values.cells.as_slice(), net);
        let driver = driver_of(inputs, values, net, cell);
        rows.push(row_of_net(values, net, driver))?;
    }
    Ok(Rows::from_vec(rows))
}

/// The name of a net, empty past the end.
pub fn name_of(alloc: Global, nets: &[Name], net: usize) -> Result<Name, AllocError>
    ensures { IfOk result (λ n. n ≡ net_name nets.now net) }
{
    if net < nets.len() {
        copy_of(alloc, &nets[net])
    } else {
        Ok(Name::empty(alloc))
    }
}

/// The names of the nets that are used.
pub fn find_net_names(alloc: Global, nets: &[Name], used: &[u32]) -> Result<Names, AllocError>
    ensures { IfOk result (λ r. r ≡ map (net_name nets.now) used.now) }
{
    let mut names = Vec::with_capacity(alloc, used.len())?;
    for i in 0..used.len() {
        names.push(name_of(alloc, nets, used[i] as usize)?)?;
    }
    Ok(Names::from_vec(names))
}
