//! What is held against a limit, its bound, and whether it is met.
#![tactic(auto)]

ghost use Rattle.std.specs.Prelude.{◌≡◌, ◌<◌, length};
ghost use Rattle.gs_design.specs.Limits.{bound_in, held_in, is_driven_by_inst, is_inst, is_met_in, limit_net, over_in};
ghost use Rattle.gs_limits.specs.Limit.{IsPlaced};

use crate::amount::{greater, over_bound, within};
use gs_design::{Design, Driver, Limit, NetId, NetTime};
use gs_quantity::Micro;

// What the record of its net holds against a limit.
#[inline]
pub(crate) fn held(time: &NetTime, limit: &Limit) -> Micro
    ensures { result ≡ held_in time.now limit.now }
{
    match *limit {
        Limit::Setup(_) => greater(time.rise.arrival, time.fall.arrival),
        Limit::Slew(_) => greater(time.rise.slew, time.fall.slew),
        Limit::Load(_) => time.load,
        Limit::Area => Micro(0),
    }
}

// The bound of a limit.
#[inline]
pub(crate) fn bound(design: &Design, time: &NetTime, limit: &Limit) -> Option<Micro>
    requires { IsPlaced design.now limit.now }
    ensures { result ≡ bound_in design.now time.now limit.now }
{
    match *limit {
        Limit::Setup(end) => Some(design.ends.at(end as usize).bound),
        Limit::Slew(_) => time.slew_bound,
        Limit::Load(_) => time.load_bound,
        Limit::Area => None,
    }
}

// Whether a limit is met.
#[inline]
pub(crate) fn is_met(design: &Design, time: &NetTime, limit: &Limit) -> bool
    requires { IsPlaced design.now limit.now }
    ensures { result ≡ is_met_in design.now time.now limit.now }
{
    let bound = bound(design, time, limit);
    within(held(time, limit), &bound)
}

// By how much a limit is exceeded.
#[inline]
pub(crate) fn over(design: &Design, time: &NetTime, limit: &Limit) -> u64
    requires { IsPlaced design.now limit.now }
    ensures { result ≡ over_in design.now time.now limit.now }
{
    let bound = bound(design, time, limit);
    over_bound(held(time, limit), &bound)
}

// The net that a limit is about.
#[inline]
pub(crate) fn net_of(design: &Design, limit: &Limit) -> NetId
    requires { IsPlaced design.now limit.now }
    ensures { result ≡ limit_net design.now limit.now }
{
    match *limit {
        Limit::Setup(end) => design.ends.at(end as usize).net,
        Limit::Slew(net) => net,
        Limit::Load(net) => net,
        Limit::Area => NetId(0),
    }
}

#[inline]
fn is_inst_driver(driver: &Driver) -> bool
    ensures { result ≡ is_inst driver.now }
{
    match driver {
        Driver::Port { .. } => false,
        Driver::Inst(_) => true,
    }
}

// Whether an instance drives a net.
#[inline]
pub(crate) fn driven_by_inst(design: &Design, net: NetId) -> bool
    requires { net < length design.now.nets }
    ensures { result ≡ is_driven_by_inst design.now net }
{
    is_inst_driver(design.nets.driver(net))
}
