//! The graph of a design's nets, and their order.
#![tactic(auto)]

ghost use Rattle.std.specs.Prelude.{◌≡◌, ◌++◌, ◌<◌, ℕ, List, IfErr, IfOk, OnOk, length, map, slice_index};
ghost use Rattle.gs_design.specs.Insts.{inst_at};
ghost use Rattle.gs_levels.specs.Causes.{HasCause};
ghost use Rattle.gs_levels.specs.Levels.{IsCycle};
ghost use Rattle.gs_link.specs.Columns.{AreInside, AreReadable, IsReadable};
ghost use Rattle.gs_link.specs.Linked.{IsByLevel, edges_of, gate_edges, ranks_of};
ghost use Rattle.gs_survey.specs.Numbers.{net_name};

use crate::ends::first_cell;
use crate::nets::name_of;
use crate::values::number_at;
use gs_design::{Cell, InstId, Insts, NetId};
use gs_levels::{Edge, Graph, LevelErr, Numbers, Pairs, levels};
use gs_list::Rows;
use gs_survey::is_gate_kind;
use gs_text::{Name, Names};
use std::alloc::{AllocError, Global};

fn edge_between(from: NetId, to: NetId) -> Edge
    ensures { result ≡ record { from = from; to = to } }
{
    Edge {
        from: from.number(),
        to: to.number(),
    }
}

// Puts last an edge from each of these nets.
fn push_edges(edges: &mut Vec<Edge>, nets: &[NetId], to: NetId) -> Result<(), AllocError>
    ensures { OnOk result (edges.new.items ≡ edges.old.items ++ map (λ m. record { from = m; to = to }) nets.now) }
{
    for i in 0..nets.len() {
        edges.push(edge_between(nets[i], to))?;
    }
    Ok(())
}

// Puts last the edges of an instance.
fn push_gate(
    edges: &mut Vec<Edge>,
    cells: &[Cell],
    insts: &Insts,
    inst: u32,
) -> Result<(), AllocError>
    requires inst { inst < length insts.now }
    requires readable { IsReadable cells.now (inst_at insts.now inst) }
    ensures { OnOk result (edges.new.items ≡ edges.old.items ++ gate_edges cells.now (inst_at insts.now inst)) }
{
    let id = InstId(inst);
    if is_gate_kind(first_cell(cells, insts, id).kind) {
        push_edges(edges, insts.inputs(id), insts.output(id))
    } else {
        Ok(())
    }
}

// The edges of the graph of the nets.
fn find_edges(alloc: Global, cells: &[Cell], insts: &Insts) -> Result<Pairs, AllocError>
    requires many { length insts.now < 2097152 }
    requires readable { AreReadable cells.now insts.now }
    ensures { IfOk result (λ r. r ≡ edges_of cells.now insts.now) }
{
    let mut edges = Vec::new(alloc);
    for inst in 0..insts.len() as u32 {
        push_gate(&mut edges, cells, insts, inst)?;
    }
    Ok(Pairs::from_vec(edges))
}

/// The nets by level and then by number, or a cycle of the gates.
pub fn find_order(
    alloc: Global,
    cells: &[Cell],
    insts: &Insts,
    nets: u32,
) -> Result<Numbers, LevelErr>
    requires many { length insts.now < 2097152 }
    requires readable { AreReadable cells.now insts.now }
    requires inside { AreInside nets insts.now }
    ensures order { IfOk result (λ o. IsByLevel nets (edges_of cells.now insts.now) o) }
    ensures cycle { IfErr result (λ e. HasCause (edges_of cells.now insts.now) e) }
{
    let edges = find_edges(alloc, cells, insts)?;
    let graph = Graph { nodes: nets, edges };
    match levels(alloc, &graph) {
        Ok(leveled) => Ok(leveled.order),
        Err(error) => Err(error),
    }
}

/// The place of each number in the order, which holds numbers below its length.
pub fn find_ranks(alloc: Global, order: &[u32]) -> Result<Rows<u32>, AllocError>
    requires { length order.now < 4194304 }
    ensures { IfOk result (λ r. r ≡ ranks_of order.now) }
{
    let mut ranks = vec![in alloc; order.len() as u32; order.len()]?;
    for i in 0..order.len() {
        let place = order.len() - 1 - i;
        let net = order[place] as usize;
        if net >= ranks.len() {
            continue;
        }
        ranks[net] = place as u32;
    }
    Ok(Rows::from_vec(ranks))
}

/// The names of these of the nets that are used.
pub fn find_cycle_names(
    alloc: Global,
    nets: &[Name],
    used: &[u32],
    cycle: &[u32],
) -> Result<Names, AllocError>
    ensures { IfOk result (λ r. r ≡ map (λ n. net_name nets.now (slice_index used.now n)) cycle.now) }
{
    let mut names = Vec::with_capacity(alloc, cycle.len())?;
    for i in 0..cycle.len() {
        let net = number_at(used, cycle[i] as usize);
        names.push(name_of(alloc, nets, net as usize)?)?;
    }
    Ok(Names::from_vec(names))
}

/// The same numbers as numbers of nets.
pub fn net_ids(alloc: Global, numbers: &[u32]) -> Result<Rows<NetId>, AllocError>
    ensures { IfOk result (λ r. r ≡ numbers.now) }
{
    let mut ids = Vec::with_capacity(alloc, numbers.len())?;
    for i in 0..numbers.len() {
        ids.push(NetId(numbers[i]))?;
    }
    Ok(Rows::from_vec(ids))
}
