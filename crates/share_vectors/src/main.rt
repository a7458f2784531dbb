// Replays recorded lists of requests, each of which shares its limit evenly. Standard input holds them; standard output has for each the limit's
// whole watts, and for each request its share, in whole watts and as the bits of kilowatts, eight bytes each. The record: a 32-bit number of lists;
// for each a byte that counts its requests, and the 64-bit bits of the limit and of each request in kilowatts. A count above 32 stands for 32.
#![tactic(auto)]

ghost use Rattle.std.specs.Prelude.{◌≡◌, ◌*◌, ◌≤◌, drop, take};
ghost use Rattle.std.specs.List.{flat_map};
ghost use Rattle.arrayvec.specs.ArrayVec.{array_vec_len};
ghost use Rattle.plan.specs.Bytes.{bytes};
ghost use Rattle.share_vectors.specs.Lists.{watts_first, requests, answer_of, after_list};

use arrayvec::ArrayVec;
use curve::float::{of_bits, to_bits};
use plan::bytes::put;
use reading::read_full;
use recorded::{Record, replay};
use shares::even::share;
use shares::watts::{kilowatts, watts};
use std::io;

// The whole watts of the power whose bits come next.
fn next_watts(next: &mut Record) -> u64
    ensures watts { result ≡ watts_first next.old.rest.now }
    ensures left { next.new.rest.now ≡ drop 8 next.old.rest.now }
{
    watts(of_bits(next.u64()))
}

// Those of the next n.
fn next_requests(next: &mut Record, n: usize) -> ArrayVec<u64, 32>
    requires { n ≤ 32 }
    ensures watts { result.items ≡ requests n next.old.rest.now }
    ensures left { next.new.rest.now ≡ drop (8 * n) next.old.rest.now }
{
    let mut requests = ArrayVec::new();
    for _ in 0..n {
        requests.push(next_watts(next));
    }
    requests
}

// The numbers that answer the list that comes next.
fn answer(next: &mut Record) -> ArrayVec<u64, 65>
    ensures numbers { result.items ≡ answer_of next.old.rest.now }
    ensures left { next.new.rest.now ≡ after_list next.old.rest.now }
{
    let n = next.byte().min(32);
    let limit = next_watts(next);
    let mut watts = next_requests(next, n);
    share(watts.as_mut_slice(), limit);
    let mut numbers = ArrayVec::new();
    numbers.push(limit);
    for w in watts.as_slice() {
        numbers.push(*w);
        numbers.push(to_bits(kilowatts(*w)));
    }
    numbers
}

// Numbers as bytes, eight each, at the start of the result.
fn number_bytes(numbers: &ArrayVec<u64, 65>) -> [u8; 520]
    ensures { take (8 * array_vec_len numbers.now) result ≡ flat_map (bytes 8) numbers.now.items }
{
    let mut out = [0u8; 520];
    for (i, x) in numbers.as_slice().iter().enumerate() {
        put(&mut out, 8 * i, 8, *x);
    }
    out
}

// Shares the list that comes next, and writes its answer.
fn replay_list(rt: &impl Print, next: &mut Record) -> io::Result<()> {
    let numbers = answer(next);
    let out = number_bytes(&numbers);
    rt.write_all(&out[..8 * numbers.len()])
}

fn main(rt: HostRuntime) -> io::Result<()> {
    let mut record = [0u8; 65536];
    let n = read_full(&mut rt.stdin(), &mut record)?;
    replay(&record[..n], |next| replay_list(&rt, next))
}
