//! Which ranks wait: those of the moved instance's nets, and those of the nets that gates drive from a net whose record changed.
#![tactic(auto)]

ghost use Rattle.std.specs.Prelude.{◌≡◌, ◌&&◌, ◌||◌, ◌<◌, ◌+◌, ℕ, OnErr, OnOk, length, drop, true};
ghost use Rattle.std.specs.List.{list_any};
ghost use Rattle.gs_design.specs.Ends.{is_gate_inst};
ghost use Rattle.gs_design.specs.Insts.{inst_at};
ghost use Rattle.gs_design.specs.Nets.{net_at};
ghost use Rattle.gs_incr.specs.Queue.{has};
ghost use Rattle.gs_incr.specs.Walk.{has_rank, is_reader, is_seed};

use crate::queue::Queue;
use gs_design::{Design, InstId, NetId, Sink};
use gs_quantity::Mem;

// Puts the rank of a net.
#[inline]
fn put_net(queue: &mut Queue, design: &Design, net: NetId) -> Result<(), Mem>
    requires { net < length design.now.nets }
    ensures { OnOk result ((q : ℕ) → has queue.new q ≡ (has queue.old q || has_rank design.now q net)) }
{
    queue.put(*design.ranks.at(net.index()))?;
    Ok(())
}

// Puts the ranks of an instance's input nets.
fn put_inputs(queue: &mut Queue, design: &Design, inst: InstId) -> Result<(), Mem>
    requires { inst < length design.now.insts }
    ensures { OnOk result ((q : ℕ) → has queue.new q ≡ (has queue.old q || list_any (has_rank design.now q) (inst_at design.now.insts inst).inputs)) }
{
    for net in design.insts.inputs(inst) {
        put_net(queue, design, *net)?;
    }
    Ok(())
}

/// Puts the ranks of an instance's input nets, and of its output net.
pub fn put_seeds(queue: &mut Queue, design: &Design, inst: InstId) -> Result<(), Mem>
    requires { inst < length design.now.insts }
    ensures { OnOk result ((q : ℕ) → has queue.new q ≡ (has queue.old q || is_seed design.now (inst_at design.now.insts inst) q)) }
{
    put_inputs(queue, design, inst)?;
    put_net(queue, design, design.insts.output(inst))?;
    Ok(())
}

// Puts the rank of the net that a sink's instance drives, if it is a gate.
#[inline]
fn put_reader(queue: &mut Queue, design: &Design, sink: &Sink) -> Result<(), Mem>
    requires { sink.now.inst < length design.now.insts }
    ensures puts { OnOk result ((q : ℕ) → has queue.new q ≡ (has queue.old q || is_reader design.now q sink.now)) }
    // Memory runs out only where the instance is a gate.
    ensures told { OnErr result (is_gate_inst design.now.cells (inst_at design.now.insts sink.now.inst) ≡ true) }
{
    if !design.is_gate(sink.inst) {
        return Ok(());
    }
    put_net(queue, design, design.insts.output(sink.inst))
}

// Puts the ranks of the nets that gates drive from a net.
fn put_readers(queue: &mut Queue, design: &Design, net: NetId) -> Result<(), Mem>
    requires { net < length design.now.nets }
    ensures { OnOk result ((q : ℕ) → has queue.new q ≡ (has queue.old q || list_any (is_reader design.now q) (net_at design.now.nets net).sinks)) }
{
    for sink in design.nets.sinks(net) {
        put_reader(queue, design, sink)?;
    }
    Ok(())
}

/// Puts the ranks of the nets that gates drive from a net whose record changed.
#[inline]
pub fn put_readers_if(
    queue: &mut Queue,
    design: &Design,
    net: NetId,
    changed: bool,
) -> Result<(), Mem>
    requires { net < length design.now.nets }
    ensures { OnOk result ((q : ℕ) → has queue.new q ≡ (has queue.old q || (changed && list_any (is_reader design.now q) (net_at design.now.nets net).sinks))) }
{
    if changed {
        return put_readers(queue, design, net);
    }
    Ok(())
}
