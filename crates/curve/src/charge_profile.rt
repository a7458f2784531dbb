// A vehicle's charge profile: power as a function of battery SOC (state of charge, 0 to 1).
ghost use Rattle.std.specs.Prelude.{◌≡◌, ◌+◌, ◌<◌, ◌≤◌, [], length};
ghost use Rattle.std.specs.Float.Ieee.{le};
ghost use Rattle.curve.specs.F64.{greatest};
ghost use Rattle.curve.specs.Curve as Curve;
ghost use Rattle.curve.specs.Code.Places as Places;
ghost use Rattle.curve.specs.Code.Rising.{Rises};

use crate::float::{max, min};
use crate::points::{Point, reached, reached_from, reached_near};
use crate::units::{Kw, Kwh, Seconds};

// What charging takes: seconds, energy, and the largest average power of a segment.
#[derive(Clone, Copy)]
pub struct ChargingOutput {
    pub duration: Seconds,
    pub energy: Kwh,
    pub peak: Kw,
}

// The SOC reached, and what it took to get there.
#[derive(Clone, Copy)]
pub struct Charge {
    pub soc: f64,
    pub output: ChargingOutput,
}

// Where a SOC lies on a curve: how many points, from the first, are at or below it, and the power there.
#[derive(Clone, Copy)]
pub struct Place {
    pub reached: usize,
    pub power: Kw,
}

// A charge on its way along a curve, with the place of the SOC reached.
#[derive(Clone, Copy)]
pub struct Walk {
    pub charge: Charge,
    pub place: Place,
}

// A segment of the curve, from one point to the next.
#[derive(Clone, Copy)]
struct Segment {
    start: Point,
    end: Point,
}

// The power at `soc` on the line through p and q.
pub fn between(p: Point, q: Point, soc: f64) -> Kw
    ensures { result ≡ Curve.between p q soc }
{
    Kw(p.power.0 + (soc - p.soc) * (q.power.0 - p.power.0) / (q.soc - p.soc))
}

// The power at `soc` if i points are at or below it.
fn power_after(curve: &[Point], i: usize, soc: f64) -> Kw
    requires { i ≤ length curve.now }
    ensures { result ≡ Curve.power_after curve.now soc i }
{
    let n = curve.len();
    if n == 0 {
        return Kw(0.0);
    }
    if i == 0 {
        return curve[0].power;
    }
    if i == n {
        return curve[n - 1].power;
    }
    between(curve[i - 1], curve[i], soc)
}

// The power at `soc`.
pub fn power_at(curve: &[Point], soc: f64) -> Kw
    ensures { result ≡ Curve.power_at curve.now soc }
{
    power_after(curve, reached(curve, soc), soc)
}

// The place of `soc` where the points rise and `near` of them, and at most a few more, are at or below it. That they rise is asked by clause, as
// by the searches of `points`.
pub fn place_near(curve: &[Point], near: usize, soc: f64) -> Place
    requires { Rises le curve.now }
    ensures { result ≡ Places.place curve.now soc }
{
    let reached = reached_near(curve, near, soc);
    Place {
        reached,
        power: power_after(curve, reached, soc),
    }
}

// The place of `soc`, where the first i points are at or below it.
fn locate_from(curve: &[Point], i: usize, soc: f64) -> Place
    requires { i ≤ Curve.reached soc curve.now }
    ensures { result ≡ Places.place curve.now soc }
{
    let reached = reached_from(curve, i, soc);
    Place {
        reached,
        power: power_after(curve, reached, soc),
    }
}

// The place of `to` from that of `from`. Upward the search goes on where the last one ended.
fn onward(curve: &[Point], from: f64, place: Place, to: f64) -> Place
    requires { place ≡ Places.place curve.now from }
    ensures { result ≡ Places.place curve.now to }
{
    if from <= to {
        return locate_from(curve, place.reached, to);
    }
    locate_from(curve, 0, to)
}

// The place of the larger of `soc` and `start`, from that of `soc`.
fn from_start(curve: &[Point], soc: f64, place: Place, start: f64) -> Place
    requires { place ≡ Places.place curve.now soc }
    ensures { result ≡ Places.place curve.now (greatest soc start) }
{
    if soc != soc {
        return locate_from(curve, 0, start);
    }
    if soc < start {
        return locate_from(curve, 0, start);
    }
    place
}

// The average power over a part of a segment: the powers at its two ends are each capped, then averaged.
fn average(a: Kw, b: Kw, cap: Kw) -> Kw
    ensures { result ≡ Curve.average a b cap }
{
    let first = a.0;
    let last = b.0;
    let most = cap.0;
    Kw(0.5 * (min(first, most) + min(last, most)))
}

// Charging over the part of the segment between the SOC reached and the target.
fn part(curve: &[Point], battery: Kwh, target: f64, cap: Kw, segment: Segment, w: Walk) -> Walk
    requires { w ≡ Places.walk curve.now w.charge }
    ensures { result ≡ Places.walk curve.now (Curve.part curve.now battery target cap segment.start segment.end w.charge) }
{
    let c = w.charge;
    let p = segment.start;
    let q = segment.end;
    let s = max(c.soc, p.soc);
    let e = min(target, q.soc);
    let first = from_start(curve, c.soc, w.place, p.soc);
    let place = onward(curve, s, first, e);
    let energy = (e - s) * battery.0;
    let mean = average(first.power, place.power, cap).0;
    Walk {
        charge: Charge {
            soc: e,
            output: ChargingOutput {
                duration: Seconds(c.output.duration.0 + 3600.0 * energy / mean),
                energy: Kwh(c.output.energy.0 + energy),
                peak: Kw(max(c.output.peak.0, mean)),
            },
        },
        place,
    }
}

// The same, if the SOC reached is below the target and the segment's end.
fn through(curve: &[Point], battery: Kwh, target: f64, cap: Kw, segment: Segment, w: Walk) -> Walk
    requires { w ≡ Places.walk curve.now w.charge }
    ensures { result ≡ Places.walk curve.now (Curve.through curve.now battery target cap segment.start segment.end w.charge) }
{
    if target <= w.charge.soc {
        return w;
    }
    if segment.end.soc <= w.charge.soc {
        return w;
    }
    part(curve, battery, target, cap, segment, w)
}

// How many points, from the first, have a SOC at or below `soc`, by the test that a segment is skipped for.
fn passed(curve: &[Point], soc: f64) -> usize
    ensures bounded { result ≤ length curve.now }
    ensures found { result ≡ Places.passed soc curve.now }
{
    for (i, p) in curve.iter().enumerate() {
        if !(p.soc <= soc) {
            return i;
        }
    }
    curve.len()
}

// What charging from one SOC to another takes, with the power capped throughout.
pub fn integrate_over(
    curve: &[Point],
    battery: Kwh,
    start: f64,
    target: f64,
    cap: Kw,
) -> ChargingOutput
    ensures { result ≡ Curve.integrate_over curve.now battery start target cap }
{
    let none = ChargingOutput {
        duration: Seconds(0.0),
        energy: Kwh(0.0),
        peak: Kw(0.0),
    };
    if curve.len() == 0 {
        return none;
    }
    let skipped = passed(curve, start);
    let mut w = Walk {
        charge: Charge {
            soc: start,
            output: none,
        },
        place: locate_from(curve, skipped, start),
    };
    let first = skipped.saturating_sub(1);
    let mut p = curve[first];
    for q in &curve[first + 1..] {
        if target <= w.charge.soc {
            return w.charge.output;
        }
        let segment = Segment { start: p, end: *q };
        w = through(curve, battery, target, cap, segment, w);
        p = *q;
    }
    w.charge.output
}
