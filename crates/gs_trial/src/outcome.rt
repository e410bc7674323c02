//! What a change of a net's timing does to its limits.
#![tactic(auto)]

ghost use Rattle.std.specs.Prelude.{◌≡◌, ◌<◌, ◌≤◌, length};
ghost use Rattle.gs_limits.specs.Outcome.{outcome_of};

use crate::bounded::bounded_record;
use gs_design::{Design, NetId, NetTime};
use gs_limits::{NetOutcome, judge_net};

/// What a change of a net's timing does to its limits. A net has at most 16,777,218 of them, each exceeded by at most 2^64.
#[inline]
pub fn outcome_at(design: &Design, net: NetId, old: &NetTime, new: &NetTime) -> NetOutcome
    requires { net < length design.now.nets }
    ensures value { result ≡ outcome_of design.now net old.now new.now }
    ensures few_old { result.over_old ≤ 309485046714833216143884288 }
    ensures few_new { result.over_new ≤ 309485046714833216143884288 }
{
    bounded_record(old);
    bounded_record(new);
    judge_net(design, net, old, new)
}
