//! What a change of a net's timing does to its limits.
#![tactic(auto)]

ghost use Rattle.std.specs.Prelude.{◌≡◌, ◌<◌, ◌≤◌, ◌+◌, length, map};
ghost use Rattle.gs_design.specs.Ends.{ends_at};
ghost use Rattle.gs_design.specs.declared.limit.Limit.TheVariants.{Setup};
ghost use Rattle.gs_limits.specs.Limit.{IsPlaced};
ghost use Rattle.gs_limits.specs.Outcome.{first_or, outcome_of, outcome_over, with_limit};

use crate::limit::{driven_by_inst, is_met, over};
use gs_design::{Design, Limit, NetId, NetTime};

/// What a change of a net's timing does to the limits of that net.
#[derive(Clone, Copy, Debug, PartialEq, Eq)]
pub struct NetOutcome {
    /// The first limit that the old timing meets and the new one doesn't: setup by endpoint, then the slew, then the load.
    pub broken: Option<Limit>,
    /// The sum, over the limits of the net, of what the old timing holds above the bound.
    pub over_old: u128,
    /// The same of the new timing.
    pub over_new: u128,
}

// The first broken limit so far, or else this one, if it is broken.
#[inline]
fn first_of(
    design: &Design,
    old: &NetTime,
    new: &NetTime,
    broken: &Option<Limit>,
    limit: &Limit,
) -> Option<Limit>
    requires { IsPlaced design.now limit.now }
    ensures { result ≡ first_or design.now old.now new.now broken.now limit.now }
{
    match *broken {
        Some(first) => Some(first),
        None => {
            if is_met(design, old, limit) && !is_met(design, new, limit) {
                Some(*limit)
            } else {
                None
            }
        }
    }
}

// The outcome over one limit more.
#[inline]
fn one_more(
    design: &Design,
    old: &NetTime,
    new: &NetTime,
    so_far: &NetOutcome,
    limit: &Limit,
) -> NetOutcome
    requires placed { IsPlaced design.now limit.now }
    requires old { so_far.now.over_old < 340282366920938463444927863358058659840 }
    requires new { so_far.now.over_new < 340282366920938463444927863358058659840 }
    ensures value { result ≡ with_limit design.now old.now new.now so_far.now limit.now }
    ensures near_old { result.over_old ≤ so_far.now.over_old + 18446744073709551615 }
    ensures near_new { result.over_new ≤ so_far.now.over_new + 18446744073709551615 }
{
    NetOutcome {
        broken: first_of(design, old, new, &so_far.broken, limit),
        over_old: so_far.over_old + over(design, old, limit) as u128,
        over_new: so_far.over_new + over(design, new, limit) as u128,
    }
}

// The outcome over the setup limits of a net.
fn over_setups(design: &Design, net: NetId, old: &NetTime, new: &NetTime) -> NetOutcome
    requires { net < length design.now.nets }
    ensures value { result ≡ outcome_over design.now old.now new.now (map (λ e. Setup e) (ends_at design.now.ends net)) }
    ensures few_old { result.over_old < 309485009821345068724781056 }
    ensures few_new { result.over_new < 309485009821345068724781056 }
{
    let mut outcome = NetOutcome {
        broken: None,
        over_old: 0,
        over_new: 0,
    };
    for end in design.ends_at(net) {
        let limit = Limit::Setup(*end);
        outcome = one_more(design, old, new, &outcome, &limit);
    }
    outcome
}

/// What a change of a net's timing from `old` to `new` does to the limits of that net. It takes no memory, and time in proportion to the
/// endpoints on the net.
pub fn judge_net(design: &Design, net: NetId, old: &NetTime, new: &NetTime) -> NetOutcome
    requires { net < length design.now.nets }
    ensures { result ≡ outcome_of design.now net old.now new.now }
{
    let setups = over_setups(design, net, old, new);
    let limit = Limit::Slew(net);
    let slew = one_more(design, old, new, &setups, &limit);
    if driven_by_inst(design, net) {
        let limit = Limit::Load(net);
        one_more(design, old, new, &slew, &limit)
    } else {
        slew
    }
}
