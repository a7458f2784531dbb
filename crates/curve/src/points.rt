// A curve's points, by rising SOC: a lent slice in the place of the Rust's `windows(2)`, and how many of them are at or below a SOC. The
// segment of the SOC ends at the next one.
ghost use Rattle.std.specs.Prelude.{◌≡◌, ◌+◌, ◌<◌, ◌≤◌, length, drop};
ghost use Rattle.std.specs.Float.Ieee.{le};
ghost use Rattle.curve.specs.Curve as Curve;
ghost use Rattle.curve.specs.Code.Rising.{Rises};

use crate::units::Kw;

// A point of the curve.
#[derive(Clone, Copy)]
pub struct Point {
    pub soc: f64,
    pub power: Kw,
}

// SOC 0 and no power.
pub const ORIGIN: Point = Point {
    soc: 0.0,
    power: Kw(0.0),
};

// How many points, from the first, are at or below `soc`: the segment ends at the next one.
pub fn reached(points: &[Point], soc: f64) -> usize
    ensures bounded { result ≤ length points.now }
    ensures found { result ≡ Curve.reached soc points.now }
{
    reached_from(points, 0, soc)
}

// The same, where the first i points are. The index is the answer: a search of the points behind them would count its own.
pub fn reached_from(curve: &[Point], i: usize, soc: f64) -> usize
    requires { i ≤ length curve.now }
    ensures bounded { result ≤ length curve.now }
    ensures found { result ≡ i + Curve.reached soc (drop i curve.now) }
{
    for j in i..curve.len() {
        if soc < curve[j].soc {
            return j;
        }
    }
    curve.len()
}

// The same where the points rise: by halves until at most eight points are left, and then one by one. A loop that counts no index, so that no
// `for` is plainer. That they rise is asked by clause: a type of rising points would be made for each search, to be taken apart in it.
pub fn reached_rising(curve: &[Point], soc: f64) -> usize
    requires { Rises le curve.now }
    ensures bounded { result ≤ length curve.now }
    ensures found { result ≡ Curve.reached soc curve.now }
{
    let mut passed = 0;
    let mut left = curve.len();
    while 8 < left {
        let half = left / 2;
        if !(soc < curve[passed + half].soc) {
            passed += half;
        }
        left -= half;
    }
    reached_from(curve, passed, soc)
}

// The same, at once where `near` of the points, and at most a few more, are at or below `soc`.
pub fn reached_near(curve: &[Point], near: usize, soc: f64) -> usize
    requires { Rises le curve.now }
    ensures bounded { result ≤ length curve.now }
    ensures found { result ≡ Curve.reached soc curve.now }
{
    if near == 0 {
        return reached_rising(curve, soc);
    }
    if curve.len() < near {
        return reached_rising(curve, soc);
    }
    if soc < curve[near - 1].soc {
        return reached_rising(curve, soc);
    }
    reached_from(curve, near, soc)
}
