//! The hulls of a state in a row of hulls that aren't packed, one for each value and state: they are packed as they are
//! read.

ghost use Rattle.std.specs.Prelude.{◌≡◌, ◌<◌, ◌≤◌, ◌+◌, ◌*◌, true, cond, pos, length};
ghost use Rattle.ts_base.specs.Spans.{has_some, none_span, one_span};
ghost use Rattle.ts_base.specs.declared.ext.Ext.TheVariants.{Int};
ghost use Rattle.ts_hull.specs.Hulls.{hull_of_both};
ghost use Rattle.ts_hull.specs.Sealed.{some_hull};
ghost use Rattle.ts_hull.specs.Smalls.{small, small_hull, small_span};
ghost use Rattle.ts_hull.specs.Sweeps.{hull_in, with_hull_at};
ghost use Rattle.ts_sweep.specs.Packed.{ends_span, negated, unpacked, upper};
ghost use Rattle.ts_sweep.specs.Strided.{lanes_of, span_ends};
ghost use Rattle.ts_sweep.specs.Trees.{lane_of};

use crate::column::Column;
use crate::hull::Hull as Joined;
use crate::packed::{Ends, Name, Packed, PackedHull};
use ts_automaton::Hull;
use ts_base::{Ext, Span};

/// Which hulls of a row are those of a state: it has a hull for each of `count` values and `states` states.
#[derive(Clone, Copy)]
pub struct Strided {
    pub state: usize,
    pub states: usize,
    pub count: usize,
}

/// A number or infinity in a lane.
fn lane(e: Ext) -> i64
    ensures { result ≡ lane_of e }
{
    match e {
        Ext::NegInf => -i64::MAX,
        Ext::Int(x) => x,
        Ext::PosInf => i64::MAX,
    }
}

/// A small number or an infinity, negated, in a lane.
fn negated_lane(e: Ext) -> i64
    requires { small e ≡ true }
    ensures { result ≡ lane_of (negated e) }
{
    match e {
        Ext::NegInf => i64::MAX,
        Ext::Int(x) => -x,
        Ext::PosInf => -i64::MAX,
    }
}

/// The upper end that a lane represents.
fn upper(x: i64) -> Ext
    ensures { result ≡ upper x }
{
    if x <= -i64::MAX {
        Ext::NegInf
    } else if i64::MAX <= x {
        Ext::PosInf
    } else {
        Ext::Int(x)
    }
}

/// The lower end that a lane represents, negated there.
fn lower(x: i64) -> Ext
    ensures { result ≡ negated (upper x) }
{
    if x <= -i64::MAX {
        Ext::PosInf
    } else if i64::MAX <= x {
        Ext::NegInf
    } else {
        Ext::Int(-x)
    }
}

impl Ends {
    /// The span between both ends.
    fn span(self) -> Span
        ensures { result ≡ ends_span self }
    {
        Span {
            lo: lower(self.below),
            hi: upper(self.above),
        }
    }
}

/// Whether a hull holds registers.
fn has_registers(h: &Hull) -> bool
    ensures { result ≡ some_hull h.now }
{
    !h.is_none()
}

/// The hull of two, register by register.
#[tactic(auto, unfolding(ts_hull::specs::Hulls::hull_of_both))]
fn hull_of_both(first: &Hull, second: &Hull) -> Hull
    ensures { result ≡ hull_of_both first.now second.now }
{
    Hull {
        c: first.c.hull(second.c),
        e: first.e.hull(second.e),
        d: first.d.hull(second.d),
        f: first.f.hull(second.f),
        r: first.r.hull(second.r),
    }
}

/// The ends of a small span.
#[inline(always)]
fn ends_of(s: Span) -> Ends
    requires { small_span s ≡ true }
    ensures { result ≡ span_ends s }
{
    Ends {
        below: negated_lane(s.lo),
        above: lane(s.hi),
    }
}

/// A small hull in packed form. Lanes that belong to no register are 0.
#[inline(always)]
fn packed<const N: usize>(h: &Hull) -> PackedHull<N>
    requires registers { 6 ≤ N }
    requires lanes { N ≤ 64 }
    requires small { small_hull h.now ≡ true }
    ensures { result.at ≡ lanes_of N h.now }
{
    if !has_registers(h) {
        return PackedHull { at: [i64::MIN; N] };
    }
    let c = ends_of(h.c);
    let e = ends_of(h.e);
    let d = ends_of(h.d);
    let f = ends_of(h.f);
    let r = ends_of(h.r);
    let zeros = PackedHull::<N> { at: [0; N] };
    zeros
        .with(Name::C, c)
        .with(Name::E, e)
        .with(Name::D, d)
        .with(Name::F, f)
        .with(Name::R, r)
}

/// The span of E and F of a narrow hull: 0, or none where C is none.
#[inline(always)]
fn at_rest(c: Span) -> Span
    ensures { result ≡ cond (has_some c) (one_span (Int (pos 0))) none_span }
{
    if c.is_none() {
        Span::none()
    } else {
        Span::one(Ext::Int(0))
    }
}

/// The hull that lanes represent.
pub fn unpacked<const N: usize>(h: &PackedHull<N>) -> Hull
    requires registers { 6 ≤ N }
    requires lanes { N ≤ 64 }
    ensures { result ≡ unpacked h.now.at }
{
    let c = h.ends(Name::C).span();
    let d = h.ends(Name::D).span();
    let r = h.ends(Name::R).span();
    if PackedHull::<N>::is_wide() {
        let e = h.ends(Name::E).span();
        let f = h.ends(Name::F).span();
        Hull { c, e, d, f, r }
    } else {
        let rest = at_rest(c);
        Hull {
            c,
            e: rest,
            d,
            f: rest,
            r,
        }
    }
}

/// The hull of a state at a place, in packed form.
#[inline(always)]
fn hull_at<const N: usize>(
    row: &[Hull],
    count: usize,
    states: usize,
    state: usize,
    i: usize,
) -> PackedHull<N>
    requires registers { 6 ≤ N }
    requires lanes { N ≤ 64 }
    requires inside { i < count }
    requires state { state < states }
    requires row { length row.now ≡ count * states }
    requires small { small_hull (hull_in states state row.now i) ≡ true }
    ensures { result.at ≡ lanes_of N (hull_in states state row.now i) }
{
    packed(&row[i * states + state])
}

/// The hull of a state at a place takes in another.
#[inline(always)]
fn join_at<const N: usize>(
    row: &mut [Hull],
    count: usize,
    states: usize,
    state: usize,
    i: usize,
    h: &PackedHull<N>,
)
    requires registers { 6 ≤ N }
    requires lanes { N ≤ 64 }
    requires inside { i < count }
    requires state { state < states }
    requires row { length row.old ≡ count * states }
    ensures { row.new ≡ with_hull_at row.old (i * states + state) (unpacked h.now.at) }
{
    let p = i * states + state;
    row[p] = hull_of_both(&row[p], &unpacked(h));
}

impl<const N: usize> Column<PackedHull<N>> for Strided {
    ghost use Rattle.std.specs.Prelude.{◌≡◌, ◌≢◌, ◌<◌, ◌≤◌, ◌+◌, ◌*◌, ℕ, length, get_or, map};
    ghost use Rattle.std.specs.List.{range_with_len};
    ghost use Rattle.ts_hull.specs.Hulls.{none as none_hull, hull_of_both};
    ghost use Rattle.ts_hull.specs.Sweeps.{hull_in};
    ghost use Rattle.ts_sweep.specs.Packed.{unpacked};
    ghost use Rattle.ts_sweep.specs.Strided.{packed_at, AreBeside, IsPackable};
    ghost use Rattle.ts_sweep.specs.StridedLaws.{same_count, beside_itself, beside_both};

    type Item = Hull;

    ghost blank = { none_hull };

    ghost column = { λ c row. map (hull_in c.states c.state row) (range_with_len 0 c.count) };

    ghost hulls = { λ c row. map (packed_at N c.states c.state row) (range_with_len 0 c.count) };

    ghost taking = { λ y h. hull_of_both y (unpacked h.at) };

    ghost beside = { λ c a b. AreBeside c.state c.states c.count a b };

    ghost whole = { λ c row. (6 ≤ N) × (N ≤ 64) × (c.state < c.states) × (length row ≡ c.count * c.states) };

    ghost readable = { λ c row. (p : ℕ) → IsPackable N (get_or row p none_hull) };

    ghost same_length = { λ c row. same_count c.count _ _ };

    ghost beside_itself = { λ c row. beside_itself c.state c.states c.count row };

    ghost beside_both = { λ c a b d p q. beside_both c.state c.states c.count a b d p q };

    #[inline(always)]
    fn hull(self, row: &[Hull], i: usize) -> PackedHull<N> {
        hull_at(row, self.count, self.states, self.state, i)
    }

    #[inline(always)]
    fn take_in(self, row: &mut [Hull], i: usize, h: PackedHull<N>) {
        join_at(row, self.count, self.states, self.state, i, &h);
    }
}
