//! What hangs on a net: its load, and the bound on its slew.
#![tactic(auto)]

ghost use Rattle.std.specs.Prelude.{◌≡◌, ◌<◌, ◌+ℤ◌, fold, length, nat_abs, slice_index};
ghost use Rattle.std.specs.Int.{int_min};
ghost use Rattle.gs_design.specs.Hot.{pin_data};
ghost use Rattle.gs_design.specs.Insts.{inst_at};
ghost use Rattle.gs_design.specs.Load.{load_of, pin_slew_bound, sink_pin, tighter};
ghost use Rattle.gs_design.specs.Nets.{net_at};
ghost use Rattle.gs_design.specs.Sizes.{FitSizes};

use gs_design::{CellId, Design, InstId, NetId, PinData, Sink, SizeView};
use gs_quantity::Micro;

/// The load of a net, and the bound on its slew, none where nothing bounds it.
#[derive(Clone, Copy, Debug)]
pub struct Hung {
    pub load: Micro,
    pub slew_bound: Option<Micro>,
}

/// The cell of an instance.
#[inline(always)]
pub fn chosen<S: SizeView>(design: &Design, sizes: &S, inst: InstId) -> CellId
    requires sizes { FitSizes design.now (S.SizeView.places sizes.now) }
    requires inst { inst < length design.now.insts }
    ensures value { result ≡ slice_index (inst_at design.now.insts inst).alts (slice_index (S.SizeView.places sizes.now) inst) }
    ensures within { result < length design.now.cells }
{
    design.insts.cell(inst, sizes.place(inst))
}

#[inline(always)]
fn lesser(a: Micro, b: Micro) -> Micro
    ensures { result ≡ int_min a b }
{
    Micro(a.0.min(b.0))
}

#[inline(always)]
fn tighter_of(a: &Option<Micro>, b: &Option<Micro>) -> Option<Micro>
    ensures { result ≡ tighter a.now b.now }
{
    match (a, b) {
        (Some(x), Some(y)) => Some(lesser(*x, *y)),
        (Some(x), None) => Some(*x),
        (None, other) => *other,
    }
}

#[inline(always)]
fn sum(load: Micro, cap: Micro) -> Micro
    requires load { nat_abs load < 288230376151711744 }
    requires cap { nat_abs cap < 1099511627776 }
    ensures { result ≡ load +ℤ cap }
{
    Micro(load.0 + cap.0)
}

#[inline(always)]
fn sink_data<'a, S: SizeView>(design: &'a Design, sizes: &S, sink: &Sink) -> &'a PinData
    requires sizes { FitSizes design.now (S.SizeView.places sizes.now) }
    requires inst { sink.now.inst < length design.now.insts }
    requires pin { sink.now.pin < length (inst_at design.now.insts sink.now.inst).inputs }
    ensures value { result.now ≡ pin_data design.now.slew_default (sink_pin design.now (S.SizeView.places sizes.now) sink.now) }
    ensures cap { nat_abs result.now.cap < 17179869184 }
{
    design.pin(chosen(design, sizes, sink.inst), sink.pin)
}

// With the pin of one sink more.
#[inline(always)]
fn with_pin(hung: &Hung, pin: &PinData) -> Hung
    requires load { nat_abs hung.now.load < 288230376151711744 }
    requires cap { nat_abs pin.now.cap < 17179869184 }
    ensures load { result.load ≡ hung.now.load +ℤ pin.now.cap }
    ensures slew_bound { result.slew_bound ≡ tighter hung.now.slew_bound pin.now.slew_bound }
{
    Hung {
        load: sum(hung.load, pin.cap),
        slew_bound: tighter_of(&hung.slew_bound, &pin.slew_bound),
    }
}

// The load without the sinks.
#[inline(always)]
fn bare(design: &Design, net: NetId) -> Micro
    requires { net < length design.now.nets }
    ensures value { result ≡ (net_at design.now.nets net).wire +ℤ (net_at design.now.nets net).port_load }
    ensures small { nat_abs result < 2199023255552 }
{
    sum(design.nets.wire(net), design.nets.port_load(net))
}

/// The load of a net, and the bound on its slew where its driver gives this one.
#[inline(always)]
pub fn hung_on<S: SizeView>(
    design: &Design,
    sizes: &S,
    net: NetId,
    slew_bound: &Option<Micro>,
) -> Hung
    requires net { net < length design.now.nets }
    requires sizes { FitSizes design.now (S.SizeView.places sizes.now) }
    ensures load { result.load ≡ load_of design.now (S.SizeView.places sizes.now) net }
    ensures slew_bound { result.slew_bound ≡ fold (λ bound k. tighter bound (pin_slew_bound design.now (sink_pin design.now (S.SizeView.places sizes.now) k))) slew_bound.now (net_at design.now.nets net).sinks }
    ensures small { nat_abs result.load < 288230376151711744 }
{
    let mut hung = Hung {
        load: bare(design, net),
        slew_bound: *slew_bound,
    };
    for sink in design.nets.sinks(net) {
        hung = with_pin(&hung, sink_data(design, sizes, sink));
    }
    hung
}
