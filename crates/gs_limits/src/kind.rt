//! The limits of a design, one kind after another.
#![tactic(auto)]

ghost use Rattle.std.specs.Prelude.{◌≡◌, ◌<◌};
ghost use Rattle.gs_limits.specs.Kinds.{kind_count, limit_of, stands};
ghost use Rattle.gs_limits.specs.Limit.{IsPlaced};

use crate::limit::driven_by_inst;
use gs_design::{Design, Limit, NetId};

// The kinds of limits.
#[derive(Clone, Copy)]
pub(crate) enum Kind {
    Setups,
    Slews,
    Loads,
}

// The limit of a kind with a number.
#[inline]
pub(crate) fn limit_at(kind: Kind, number: u32) -> Limit
    ensures { result ≡ limit_of kind number }
{
    match kind {
        Kind::Setups => Limit::Setup(number),
        Kind::Slews => Limit::Slew(NetId(number)),
        Kind::Loads => Limit::Load(NetId(number)),
    }
}

// How many limits of a kind there are at most.
pub(crate) fn count_of(design: &Design, kind: Kind) -> u32
    ensures { result ≡ kind_count design.now kind }
{
    match kind {
        Kind::Setups => design.ends.len() as u32,
        Kind::Slews => design.nets.len() as u32,
        Kind::Loads => design.nets.len() as u32,
    }
}

// Whether a design has a limit: a load is limited where an instance drives the net.
#[inline]
pub(crate) fn is_one(design: &Design, limit: &Limit) -> bool
    requires { IsPlaced design.now limit.now }
    ensures { result ≡ stands design.now limit.now }
{
    match *limit {
        Limit::Setup(_) => true,
        Limit::Slew(_) => true,
        Limit::Load(net) => driven_by_inst(design, net),
        Limit::Area => false,
    }
}
