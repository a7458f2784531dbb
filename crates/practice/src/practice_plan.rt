// The plan of a practice day, written block by block.
ghost use Rattle.std.specs.Prelude.{◌≡◌, ◌+◌, ◌*◌, ◌^◌, ◌<◌, ◌≤◌, length};
ghost use Rattle.curve.specs.F64.{ratio};
ghost use Rattle.std.proofs.lemmas.List.Edits.{sets};
ghost use Rattle.plan.specs.Bytes.{pieces};
ghost use Rattle.plan.specs.Blocks.{sealed};
ghost use Rattle.plan.specs.Places.{vehicle_count};
ghost use Rattle.practice.specs.Xorshift.{draw};
ghost use Rattle.practice.specs.PracticePlan.{drawn_arrival, drawn_start, drawn_target, car_bytes, car_block, practice_plan};

use crate::xorshift::step;
use curve::float::to_bits;
use files::counted::CountedPlan;
use plan::blocks::seal;
use plan::bytes::{put, put_bytes};
use plan::header::put_header;
use plan::places::Kind;

// What is drawn for a car, and the state of the generator then.
#[derive(Clone, Copy)]
struct Drawn {
    arrival: u64,
    start: f64,
    target: f64,
    state: u32,
}

// n / 1024.
fn in_1024ths(n: u32) -> f64
    requires { n < 1024 }
    ensures { result ≡ ratio n 1024 }
{
    std::num::nearest_u64_to_f64(u64::from(n)) / 1024.0
}

// The three draws of a car.
fn draw_car(state: u32) -> Drawn
    ensures arrival { result.arrival ≡ drawn_arrival (draw state 1) }
    ensures start { result.start ≡ drawn_start (draw state 2) }
    ensures target { result.target ≡ drawn_target (draw state 3) }
    ensures state { result.state ≡ draw state 3 }
{
    let first = step(state);
    let second = step(first);
    let third = step(second);
    Drawn {
        arrival: u64::from(first % 86400),
        start: in_1024ths(second % 512),
        target: in_1024ths(512 + third % 512),
        state: third,
    }
}

// Stores a car's block, the place-th of its file, into s from at: the vehicle's but for the id and what is drawn.
fn put_car(s: &mut [u8], at: usize, place: u32, vehicle: &[u8; 512], id: u64, drawn: Drawn)
    requires { at + 512 ≤ length s.old }
    ensures { s.new ≡ sets s.old at (sealed place (car_bytes vehicle.now id drawn.start drawn.target drawn.arrival)) }
{
    put(s, at, 4, id);
    put_bytes(s, at + 4, &vehicle[4..16]);
    put(s, at + 16, 8, to_bits(drawn.start));
    put(s, at + 24, 8, to_bits(drawn.target));
    put_bytes(s, at + 32, &vehicle[32..40]);
    put(s, at + 40, 8, drawn.arrival);
    put_bytes(s, at + 48, &vehicle[48..508]);
    seal(s, at, place);
}

// Stores the blocks of count cars, the first of them the place-th of its file, into s from at.
fn put_cars(s: &mut [u8], at: usize, place: u32, vehicle: &[u8; 512], seed: u32, count: u32)
    requires room { at + 512 * count ≤ length s.old }
    requires places { place + count < 2 ^ 32 }
    ensures { s.new ≡ sets s.old at (pieces (car_block vehicle.now seed place) 0 count) }
{
    let mut state = seed;
    for i in 0..count {
        let drawn = draw_car(state);
        put_car(
            s,
            at + 512 * i as usize,
            place + i,
            vehicle,
            u64::from(i) + 1,
            drawn,
        );
        state = drawn.state;
    }
}

// Stores the plan of count cars at the start of s.
pub fn put_practice_plan(s: &mut [u8], plan: &CountedPlan, seed: u32, count: u32)
    requires one { vehicle_count plan.now.file ≡ 1 }
    requires count { count ≤ 64 }
    requires room { 57856 ≤ length s.old }
    ensures { s.new ≡ sets s.old 0 (practice_plan plan.now.file seed count) }
{
    let file = &plan.file;
    let first = file.start_of(Kind::Vehicle);
    let at = 512 * first;
    put_header(s, file, count as usize);
    put_bytes(s, 512, &file.bytes[512..at]);
    put_cars(
        s,
        at,
        first as u32 + 1,
        file.block_of(Kind::Vehicle, 0),
        seed,
        count,
    );
}
