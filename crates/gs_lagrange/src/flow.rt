//! What has come by the edges of nets, as paths are followed back.
#![tactic(auto)]

ghost use Rattle.std.specs.Prelude.{◌≡◌, ◌+◌, ◌<◌, ◌^◌, Bool, if◌then◌else◌, length, slice_index_or};
ghost use Rattle.gs_lagrange.specs.Flow.{flow_on, no_flow, same_rise};

use crate::edge::NetEdge;
use gs_design::NetId;
use gs_quantity::Mem;
use std::alloc::Global;
use std::marker::Model;

/// What has come by the rise and by the fall of a net.
#[derive(Clone, Copy, Debug)]
pub struct Flow {
    pub rise: u64,
    pub fall: u64,
}

/// What has come by the edges of each net. Contracts see the list.
#[derive(Debug, Drop)]
pub struct Flows {
    items: Vec<Flow>,
}

impl Model for Flows {
    ghost use Rattle.std.specs.Prelude.{List};
    ghost use Rattle.gs_lagrange.specs.declared.flow.Flow.{Flow};

    ghost Value = { List Flow };

    ghost view = { λ f. f.items.items };
}

// What has come by one edge of a net.
#[inline]
fn on_edge(flow: &Flow, rise: bool) -> u64
    ensures { result ≡ flow_on rise flow.now }
{
    if rise { flow.rise } else { flow.fall }
}

#[inline]
fn flow_of(flows: &[Flow], net: NetId) -> &Flow
    requires { net < length flows.now }
    ensures { result.now ≡ slice_index_or flows.now net no_flow }
{
    &flows[net.index()]
}

// With so much more by one edge.
#[inline]
fn with_more(flow: &Flow, rise: bool, by: u64) -> Flow
    requires { flow_on rise flow.now + by < 2 ^ 64 }
    ensures { (r : Bool) → flow_on r result ≡ flow_on r flow.now + (if same_rise rise r then by else 0) }
{
    if rise {
        Flow {
            rise: flow.rise + by,
            fall: flow.fall,
        }
    } else {
        Flow {
            rise: flow.rise,
            fall: flow.fall + by,
        }
    }
}

impl Flows {
    ghost use Rattle.std.specs.Prelude.{◌≡◌, ◌+◌, ◌<◌, ◌^◌, IfOk, if◌then◌else◌, length};
    ghost use Rattle.gs_lagrange.specs.Flow.{flow_at, is_edge, weight_in};
    ghost use Rattle.gs_lagrange.specs.declared.edge.NetEdge.{NetEdge as TheEdge};

    /// Nothing has come by any edge of so many nets.
    pub fn none(alloc: Global, count: usize) -> Result<Flows, Mem>
        ensures { IfOk result (λ f. length f ≡ count) }
    {
        let items = vec![in alloc; Flow { rise: 0, fall: 0 }; count]?;
        Ok(Flows { items })
    }

    /// Nothing has come any more.
    pub fn clear(&mut self)
        ensures as_many { length self.new ≡ length self.old }
        ensures none { (e : TheEdge) → flow_at self.new e ≡ 0 }
    {
        for flow in self.items.iter_mut() {
            *flow = Flow { rise: 0, fall: 0 };
        }
    }

    /// What has come by an edge.
    #[inline]
    pub fn at(&self, edge: &NetEdge) -> u64
        requires { edge.now.net < length self.now }
        ensures { result ≡ flow_at self.now edge.now }
    {
        on_edge(flow_of(self.items.as_slice(), edge.net), edge.rise)
    }

    /// So much more comes by an edge.
    pub fn add(&mut self, edge: &NetEdge, by: u64)
        requires net { edge.now.net < length self.old }
        requires fits { flow_at self.old edge.now + by < 2 ^ 64 }
        ensures as_many { length self.new ≡ length self.old }
        ensures at { (e : TheEdge) → flow_at self.new e ≡ flow_at self.old e + (if is_edge edge.now e then by else 0) }
    {
        let more = with_more(flow_of(self.items.as_slice(), edge.net), edge.rise, by);
        let at = edge.net.index();
        self.items[at] = more;
    }

    /// What has come by a net.
    pub fn weight(&self, net: NetId) -> u64
        requires net { net < length self.now }
        requires fits { weight_in self.now net < 2 ^ 64 }
        ensures { result ≡ weight_in self.now net }
    {
        let flow = flow_of(self.items.as_slice(), net);
        flow.rise + flow.fall
    }
}
