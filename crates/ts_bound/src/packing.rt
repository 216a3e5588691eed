//! Hulls of tables in lanes.

ghost use Rattle.std.specs.Prelude.{◌≡◌, true};
ghost use Rattle.ts_bound.specs.Fits.{Fits, HullFits, SpanFits};
ghost use Rattle.ts_hull.specs.Sealed.{some_hull};
ghost use Rattle.ts_row.specs.Rows.{lanes_of};
ghost use Rattle.ts_sweep.specs.Packed.{AreSome, negated, unpacked};
ghost use Rattle.ts_sweep.specs.Strided.{span_ends};
ghost use Rattle.ts_sweep.specs.Trees.{lane_of};

use ts_automaton::Hull;
use ts_base::{Ext, Span};
use ts_sweep::packed::{Ends, Name, Packed, PackedHull};

/// A number or infinity in a lane.
fn lane(e: Ext) -> i64
    ensures { result ≡ lane_of e }
{
    match e {
        Ext::NegInf => -i64::MAX,
        Ext::Int(x) => x,
        Ext::PosInf => i64::MAX,
    }
}

/// A number or infinity, negated, in a lane.
fn negated_lane(e: Ext) -> i64
    requires { Fits e }
    ensures { result ≡ lane_of (negated e) }
{
    match e {
        Ext::NegInf => i64::MAX,
        Ext::Int(x) => -x,
        Ext::PosInf => -i64::MAX,
    }
}

/// The ends of a span.
fn ends_of(s: Span) -> Ends
    requires { SpanFits s }
    ensures { result ≡ span_ends s }
{
    Ends {
        below: negated_lane(s.lo),
        above: lane(s.hi),
    }
}

/// A hull in ten lanes. Those of E and F are there for a narrow automaton too, in which both are 0.
pub(crate) fn packed(h: &Hull) -> PackedHull<10>
    requires some { some_hull h.now ≡ true }
    requires fits { HullFits h.now }
    ensures some { AreSome 10 (lanes_of 10 result) }
    ensures hull { unpacked (lanes_of 10 result) ≡ h.now }
{
    let c = ends_of(h.c);
    let e = ends_of(h.e);
    let d = ends_of(h.d);
    let f = ends_of(h.f);
    let r = ends_of(h.r);
    let zeros = PackedHull::<10> { at: [0; 10] };
    zeros
        .with(Name::C, c)
        .with(Name::E, e)
        .with(Name::D, d)
        .with(Name::F, f)
        .with(Name::R, r)
}
