// The fields of a plan's blocks, each within its limits. The bounds on places and counts (`at + 8 ≤`, `to ≤`, `n ≤ 30`) stand in the contracts, since a
// type that carries one would have to name the block in which it is a place.
ghost use Rattle.std.specs.Prelude.{◌≡◌, ◌+◌, ◌*◌, ◌<◌, ◌≤◌, length};
ghost use Rattle.curve.specs.F64.{in_range};
ghost use Rattle.plan.specs.Bytes.{le_at};
ghost use Rattle.plan.specs.Search.{every, holds};
ghost use Rattle.plan.specs.Fields.{f64_at, bytes_in, zeros as Fields·zeros, letters_ok, limit_ok, header_tests, point_count, point_ok, profile_tests, connectors_ok, cap_ok, charger_tests, vehicle_tests};

use crate::bytes::{u8_at, u16_at, u64_at};
use curve::float::{in_range, of_bits};

// The float in the 8 bytes of b from at.
pub fn f64_at(b: &[u8], at: usize) -> f64
    requires { at + 8 ≤ length b.now }
    ensures { result ≡ f64_at b.now at }
{
    of_bits(u64_at(b, at))
}

// The float in the 8 bytes of b from at is within lo and hi, and its sign bit is clear.
fn f64_in(b: &[u8], at: usize, lo: f64, hi: f64) -> bool
    requires { at + 8 ≤ length b.now }
    ensures { result ≡ in_range (le_at 8 b.now at) lo hi }
{
    in_range(u64_at(b, at), lo, hi)
}

// Each byte of b from `from` up to, not including, `to` is within lo and hi.
// There is no early exit, so that the compiler can take many bytes at once.
fn bytes_in(b: &[u8], from: usize, to: usize, lo: u8, hi: u8) -> bool
    requires { to ≤ length b.now }
    ensures { result ≡ bytes_in b.now from to lo hi }
{
    let mut ok = true;
    for k in from..to {
        let x = b[k];
        ok &= (lo <= x) & (x <= hi);
    }
    ok
}

// Each of these bytes is zero.
pub fn zeros(b: &[u8], from: usize, to: usize) -> bool
    requires { to ≤ length b.now }
    ensures { result ≡ Fields·zeros b.now from to }
{
    bytes_in(b, from, to, 0, 0)
}

pub fn letters_ok(b: &[u8; 512]) -> bool
    ensures { result ≡ letters_ok b.now }
{
    b.starts_with(b"PLAN")
}

fn limit_ok(b: &[u8; 512]) -> bool
    ensures { result ≡ limit_ok b.now }
{
    let mode = u8_at(b, 12);
    ((mode == 1) | (mode == 2)) & f64_in(b, 16, 0.125, 65536.0) | (mode == 0) & zeros(b, 16, 24)
}

pub fn header_ok(b: &[u8; 512]) -> bool
    ensures { result ≡ holds (header_tests b.now) }
{
    zeros(b, 10, 12)
        & limit_ok(b)
        & zeros(b, 13, 16)
        & bytes_in(b, 24, 88, 0, 64)
        & zeros(b, 88, 508)
}

// The number of points, of which no more than 30 are read.
pub fn point_count(b: &[u8; 512]) -> usize
    ensures { (result ≡ point_count b.now) × (result ≤ 30) }
{
    u16_at(b, 4).min(30)
}

fn point_ok(b: &[u8; 512], i: usize) -> bool
    requires { i < 30 }
    ensures { result ≡ point_ok b.now i }
{
    f64_in(b, 16 + 16 * i, 0.0, 1.0) & f64_in(b, 24 + 16 * i, 0.125, 1024.0)
}

fn points_ok(b: &[u8; 512], n: usize) -> bool
    requires { n ≤ 30 }
    ensures { result ≡ every (point_ok b.now) 0 n }
{
    for i in 0..n {
        if !point_ok(b, i) {
            return false;
        }
    }
    true
}

pub fn profile_ok(b: &[u8; 512]) -> bool
    ensures { result ≡ holds (profile_tests b.now) }
{
    let n = point_count(b);
    (u16_at(b, 4) <= 30)
        & zeros(b, 6, 8)
        & f64_in(b, 8, 1.0, 1024.0)
        & points_ok(b, n)
        & zeros(b, 16 + 16 * n, 508)
}

// A connector count at at, and as many codes after it, with zero bytes up to `to`. A count that is too large is read all the same.
fn connectors_ok(b: &[u8], at: usize, to: usize) -> bool
    requires { (at + 300 ≤ length b.now) × (to ≤ length b.now) }
    ensures { result ≡ connectors_ok b.now at to }
{
    let count = u8_at(b, at);
    let end = at + 1 + count;
    (count <= 5) & bytes_in(b, at + 1, end, 1, 5) & zeros(b, end, to)
}

// The cap of a lead in the 8 bytes from at: zero bytes for none, or within its limits.
fn cap_ok(b: &[u8], at: usize) -> bool
    requires { at + 8 ≤ length b.now }
    ensures { result ≡ cap_ok b.now at }
{
    zeros(b, at, at + 8) | f64_in(b, at, 1.0, 4096.0)
}

pub fn charger_ok(b: &[u8; 512]) -> bool
    ensures { result ≡ holds (charger_tests b.now) }
{
    connectors_ok(b, 4, 16)
        & f64_in(b, 16, 0.125, 1024.0)
        & f64_in(b, 24, 1.0, 4096.0)
        & f64_in(b, 32, 1.0, 4096.0)
        & cap_ok(b, 40)
        & cap_ok(b, 48)
        & cap_ok(b, 56)
        & cap_ok(b, 64)
        & cap_ok(b, 72)
        & zeros(b, 80, 508)
}

pub fn vehicle_ok(b: &[u8; 512]) -> bool
    ensures { result ≡ holds (vehicle_tests b.now) }
{
    connectors_ok(b, 8, 16)
        & f64_in(b, 16, 0.0, 1.0)
        & f64_in(b, 24, 0.0, 1.0)
        & f64_in(b, 32, 0.0, 604800.0)
        & (u64_at(b, 40) <= 1_000_000)
        & (u64_at(b, 48) <= 1_000_000)
        & (u16_at(b, 60) <= 64)
        & zeros(b, 62, 508)
}
