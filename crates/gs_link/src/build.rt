//! The parts of a design are built of what was found.
#![tactic(auto)]

ghost use Rattle.std.specs.Prelude.{◌≡◌, ◌≤◌, ◌<◌, ◌++◌, ℕ, IfErr, IfOk, filter, length, map, pos, slice_index, slice_index_or};
ghost use Rattle.std.specs.List.{range_with_len};
ghost use Rattle.gs_amount.specs.Amount.{IsLimited};
ghost use Rattle.gs_design.specs.Ends.{data_pins, pins_on};
ghost use Rattle.gs_design.specs.Insts.{AreInsts, inst_at, insts_of};
ghost use Rattle.gs_design.specs.Nets.{AreNets, nets_of};
ghost use Rattle.gs_link.specs.Columns.{AreInside, AreReadable, BeginsWith, end_of_port, net_row, new_inputs, raw_name, row_of};
ghost use Rattle.gs_survey.specs.Found.{AreFound};
ghost use Rattle.gs_link.specs.Linked.{IsByLevel, edges_of, pin_end};
ghost use Rattle.gs_survey.specs.Numbers.{is_one_of, net_name};
ghost use Rattle.gs_survey.specs.Uses.{all_input_nets, output_nets};
ghost use Rattle.gs_link.specs.Pieces.{IsLoopErr};
ghost use Rattle.gs_survey.specs.declared.error.LinkErr.TheVariants as errors;

use crate::columns::{find_names, find_new_inputs, find_rows};
use crate::ends::{PortParts, find_ends};
use crate::nets::{find_net_names, find_net_rows};
use crate::order::{find_cycle_names, find_order};
use crate::pieces::Numbering;
use crate::sinks::find_sinks;
use crate::values::Values;
use gs_alternatives::Alternatives;
use gs_design::{Cell, Ends, Insts, Nets, Numbers};
use gs_levels::LevelErr;
use gs_list::Rows;
use gs_quantity::Micro;
use gs_survey::{LinkErr, Tally, Used};
use gs_text::Name;
use gs_verilog::RawInst;
use std::alloc::{AllocError, Global};

/// The instances of the design.
pub fn build_insts(
    alloc: Global,
    cells: &[Cell],
    insts: &[RawInst],
    found: &Rows<u32>,
    gates: &Rows<u32>,
    reads: &[u32],
    alternatives: Alternatives,
    numbers: &Rows<u32>,
) -> Result<Insts, AllocError>
    requires found { AreFound cells.now insts.now found.now }
    requires gates { gates.now ≡ output_nets cells.now insts.now }
    requires reads { BeginsWith (all_input_nets cells.now insts.now) reads.now }
    requires few { length insts.now < 2097152 }
    requires many { length alternatives.stretches ≡ length cells.now }
    requires are { AreInsts alternatives.choices (map (row_of cells.now alternatives.stretches numbers.now) insts.now) (map (new_inputs cells.now numbers.now) insts.now) (map raw_name insts.now) }
    ensures { IfOk result (λ i. i ≡ insts_of alternatives.choices (map (row_of cells.now alternatives.stretches numbers.now) insts.now) (map (new_inputs cells.now numbers.now) insts.now) (map raw_name insts.now)) }
{
    let rows = find_rows(
        alloc,
        cells,
        &alternatives.stretches,
        numbers.as_slice(),
        found.as_slice(),
        gates.as_slice(),
        insts,
    )?;
    let inputs = find_new_inputs(
        alloc,
        cells,
        numbers.as_slice(),
        found.as_slice(),
        reads,
        insts,
    )?;
    let names = find_names(alloc, insts)?;
    let Alternatives {
        choices,
        stretches: _,
    } = alternatives;
    Ok(Insts::new(choices, rows, inputs, names))
}

/// The nets of the design.
pub fn build_nets(
    alloc: Global,
    nets: &[Name],
    insts: &Insts,
    inputs: &Tally,
    values: &Values,
    used: &Rows<u32>,
) -> Result<Nets, AllocError>
    requires many { length insts.now < 2097152 }
    requires few_inputs { (g : ℕ) → g < length insts.now → length (inst_at insts.now g).inputs ≤ 6 }
    requires few { length used.now < 4194304 }
    requires inside { AreInside (length used.now) insts.now }
    requires are { AreNets (map (net_row inputs.now values.now) used.now) (map (pins_on insts.now) (range_with_len 0 (length used.now))) (map (net_name nets.now) used.now) }
    ensures { IfOk result (λ n. n ≡ nets_of (map (net_row inputs.now values.now) used.now) (map (pins_on insts.now) (range_with_len 0 (length used.now))) (map (net_name nets.now) used.now)) }
{
    let rows = find_net_rows(alloc, inputs, values, used.as_slice())?;
    let sinks = find_sinks(alloc, insts, used.len() as u32)?;
    let names = find_net_names(alloc, nets, used.as_slice())?;
    Ok(Nets::new(rows, sinks, names))
}

// A cycle's refusal.
fn loop_of(
    alloc: Global,
    nets: &[Name],
    used: &Rows<u32>,
    cycle: &Rows<u32>,
) -> Result<LinkErr, AllocError>
    ensures { IfOk result (λ e. e ≡ errors.Loop (map (λ n. net_name nets.now (slice_index used.now n)) cycle.now)) }
{
    let names = find_cycle_names(alloc, nets, used.as_slice(), cycle.as_slice())?;
    Ok(LinkErr::Loop { cycle: names })
}

/// The order of the nets, or the refusal of a cycle.
pub fn build_order(
    alloc: Global,
    cells: &[Cell],
    nets: &[Name],
    insts: &Insts,
    used: &Rows<u32>,
) -> Result<Numbers, LinkErr>
    requires many { length insts.now < 2097152 }
    requires few { length used.now < 4194304 }
    requires readable { AreReadable cells.now insts.now }
    requires inside { AreInside (length used.now) insts.now }
    ensures order { IfOk result (λ o. IsByLevel (length used.now) (edges_of cells.now insts.now) o) }
    ensures fault { IfErr result (λ e. IsLoopErr nets.now used.now (edges_of cells.now insts.now) e) }
{
    match find_order(alloc, cells, insts, used.len() as u32) {
        Ok(order) => Ok(order),
        Err(LevelErr::Mem) => Err(LinkErr::Mem),
        Err(LevelErr::Loop { cycle }) => Err(loop_of(alloc, nets, used, &cycle)?),
    }
}

/// The endpoints of the design.
pub fn build_ends(
    alloc: Global,
    cells: &[Cell],
    insts: &Insts,
    outputs: &Tally,
    numbering: &Numbering,
    period: Micro,
) -> Result<Ends, AllocError>
    requires many { length insts.now < 2097152 }
    requires readable { AreReadable cells.now insts.now }
    requires period { IsLimited period }
    requires delays { (n : ℕ) → IsLimited (slice_index_or numbering.now.values.departures n (pos 0)) }
    ensures { IfOk result (λ r. r ≡ map (end_of_port numbering.now.numbers numbering.now.values.departures period) (filter (is_one_of outputs.now) numbering.now.used) ++ map (pin_end insts.now period) (data_pins cells.now insts.now)) }
{
    let ports = PortParts {
        outputs,
        numbers: numbering.numbers.as_slice(),
        departures: numbering.values.departures.as_slice(),
        used: numbering.used.as_slice(),
    };
    find_ends(alloc, &ports, cells, insts, period)
}
