//! The nets that a move may change.
#![tactic(auto)]

ghost use Rattle.std.specs.Prelude.{◌≡◌, ◌==◌, ◌<◌, All, length};
ghost use Rattle.std.specs.List.{list_any};
ghost use Rattle.gs_design.specs.Insts.{inst_at};
ghost use Rattle.gs_design.specs.Nets.{net_at};
ghost use Rattle.gs_design.specs.Timing.{FitTiming};
ghost use Rattle.gs_move.specs.Cone.{has_changed_input, in_cone_of, is_on};
ghost use Rattle.gs_move.specs.Records.{differ};

use crate::plain::same::differ;
use gs_design::{Design, Driver, InstId, NetId, Timing};
use gs_move::Move;

// Whether a net is among these.
fn is_among(nets: &[NetId], net: NetId) -> bool
    ensures { result ≡ list_any (λ k. k == net) nets.now }
{
    for other in nets {
        if other.number() == net.number() {
            return true;
        }
    }
    false
}

// Whether a net is one of an instance's input nets, or its output net.
fn is_on(design: &Design, inst: InstId, net: NetId) -> bool
    requires { inst < length design.now.insts }
    ensures { result ≡ is_on (inst_at design.now.insts inst) net }
{
    let among = is_among(design.insts.inputs(inst), net);
    among || design.insts.output(inst).number() == net.number()
}

// Whether the records of one of these nets differ.
fn any_differs(old: &Timing, new: &Timing, nets: &[NetId]) -> bool
    requires old { All (λ n. n < length old.now) nets.now }
    requires new { All (λ n. n < length new.now) nets.now }
    ensures { result ≡ list_any (differ old.now new.now) nets.now }
{
    for net in nets {
        if differ(old, new, *net) {
            return true;
        }
    }
    false
}

// Whether a gate drives a net that has an input net whose records differ.
fn has_changed_input(design: &Design, old: &Timing, new: &Timing, net: NetId) -> bool
    requires net { net < length design.now.nets }
    requires old { FitTiming design.now old.now }
    requires new { FitTiming design.now new.now }
    ensures { result ≡ has_changed_input design.now old.now new.now (net_at design.now.nets net).driver }
{
    match design.nets.driver(net) {
        Driver::Port { .. } => false,
        Driver::Inst(inst) => {
            design.is_gate(*inst) && any_differs(old, new, design.insts.inputs(*inst))
        }
    }
}

/// Whether a net is in the cone of a move from one timing to another.
pub fn in_cone(design: &Design, mv: &Move, old: &Timing, new: &Timing, net: NetId) -> bool
    requires inst { mv.now.inst < length design.now.insts }
    requires net { net < length design.now.nets }
    requires old { FitTiming design.now old.now }
    requires new { FitTiming design.now new.now }
    ensures { result ≡ in_cone_of design.now mv.now old.now new.now net }
{
    let on = is_on(design, mv.inst, net);
    on || has_changed_input(design, old, new, net)
}
