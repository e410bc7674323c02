//! The earlier of two limits.
#![tactic(auto)]

ghost use Rattle.std.specs.Prelude.{◌≡◌, Some};
ghost use Rattle.gs_trial.specs.Order.{earlier, limit_rank};

use gs_design::{Design, Limit};

// The place of a limit in the order of all limits: setup by endpoint, then slew by net, then load by net.
fn rank(design: &Design, limit: &Limit) -> u64
    ensures { result ≡ limit_rank design.now limit.now }
{
    let ends = design.ends.len() as u64;
    let nets = design.nets.len() as u64;
    match *limit {
        Limit::Setup(end) => end as u64,
        Limit::Slew(net) => ends + net.number() as u64,
        Limit::Load(net) => ends + nets + net.number() as u64,
        Limit::Area => ends + nets + nets,
    }
}

// The earlier of two limits.
fn earlier_of(design: &Design, a: &Limit, b: &Limit) -> Option<Limit>
    ensures { result ≡ earlier design.now (Some a.now) (Some b.now) }
{
    if rank(design, b) < rank(design, a) {
        Some(*b)
    } else {
        Some(*a)
    }
}

/// The earlier of two limits, where they are given.
#[inline]
pub fn earlier(design: &Design, a: &Option<Limit>, b: &Option<Limit>) -> Option<Limit>
    ensures { result ≡ earlier design.now a.now b.now }
{
    match (a, b) {
        (Some(x), Some(y)) => earlier_of(design, x, y),
        (Some(x), None) => Some(*x),
        (None, other) => *other,
    }
}
