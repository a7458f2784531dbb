// A record of calls for a program that replays them: numbers, and changes to the program's buffers; what lies past its end counts as zero. And
// what the program writes of a call.
#![tactic(auto)]

ghost use Rattle.std.specs.Prelude.{◌≡◌, ◌<◌, ◌∷◌, ◌++◌, ◌*◌, ℕ, List, [], drop, flat_map, length, take};
ghost use Rattle.std.specs.Fn.{CalledAtMut};
ghost use Rattle.std.specs.List.{AllZip};
ghost use Rattle.std.proofs.lemmas.List.Edits.{sets};
ghost use Rattle.plan.specs.Bytes.{bytes, le_at};
ghost use Rattle.recorded.specs.Replay.{Calls, after_changes, changes, digest_of, mix, u64s};

use plan::bytes::{put, put_bytes};
use std::io;

// What of a record is still to be read.
#[derive(Drop)]
pub struct Record<'a> {
    pub rest: &'a [u8],
}

impl<'a> Record<'a> {
    // The next byte.
    #[tactic(auto, unfolding(plan::specs::Bytes::le_at))]
    pub fn byte(&mut self) -> usize
        ensures number { (result ≡ le_at 1 self.old.rest.now 0) × (result < 256) }
        ensures left { self.new.rest.now ≡ drop 1 self.old.rest.now }
    {
        match self.rest.split_first() {
            None => 0,
            Some((first, rest)) => {
                self.rest = rest;
                usize::from(*first)
            }
        }
    }

    // The little-endian number in the next two bytes.
    #[tactic(auto, using(crate::proofs::Laws::two_bytes))]
    pub fn u16(&mut self) -> usize
        ensures number { (result ≡ le_at 2 self.old.rest.now 0) × (result < 65536) }
        ensures left { self.new.rest.now ≡ drop 2 self.old.rest.now }
    {
        let low = self.byte();
        low + 256 * self.byte()
    }

    // The little-endian number in the next four.
    #[tactic(auto, using(crate::proofs::Laws::four_bytes))]
    pub fn u32(&mut self) -> u32
        ensures number { result ≡ le_at 4 self.old.rest.now 0 }
        ensures left { self.new.rest.now ≡ drop 4 self.old.rest.now }
    {
        let low = self.u16() as u32;
        low + 65536 * self.u16() as u32
    }

    // The low half of the 32-bit number that comes next.
    pub fn low_half(&mut self) -> usize
        ensures number { (result ≡ le_at 2 self.old.rest.now 0) × (result < 65536) }
        ensures left { self.new.rest.now ≡ drop 4 self.old.rest.now }
    {
        let low = self.u16();
        let _high = self.u16();
        low
    }

    // The little-endian number in the next eight.
    #[tactic(auto, using(crate::proofs::Laws::eight_bytes))]
    pub fn u64(&mut self) -> u64
        ensures number { result ≡ le_at 8 self.old.rest.now 0 }
        ensures left { self.new.rest.now ≡ drop 8 self.old.rest.now }
    {
        let low = u64::from(self.u32());
        low + 4294967296 * u64::from(self.u32())
    }

    // Fills the buffer with the numbers that come next, eight bytes each.
    pub fn u64s(&mut self, buffer: &mut [u64])
        ensures numbers { buffer.new ≡ u64s (length buffer.old) self.old.rest.now }
        ensures left { self.new.rest.now ≡ drop (8 * length buffer.old) self.old.rest.now }
    {
        for x in buffer.iter_mut() {
            *x = self.u64();
        }
    }

    // The next n bytes, as far as the record goes.
    fn bytes(&mut self, n: usize) -> &'a [u8]
        ensures first { result.now ≡ take n self.old.rest.now }
        ensures left { self.new.rest.now ≡ drop n self.old.rest.now }
    {
        let (first, rest) = self.rest.split_at(n.min(self.rest.len()));
        self.rest = rest;
        first
    }

    // Makes the changes that come next: their 16-bit number, and for each a 16-bit place, a byte count, and as many bytes.
    pub fn change(&mut self, buffer: &mut [u8])
        ensures made { buffer.new ≡ changes (le_at 2 self.old.rest.now 0) (drop 2 self.old.rest.now) buffer.old }
        ensures left { self.new.rest.now ≡ after_changes (le_at 2 self.old.rest.now 0) (drop 2 self.old.rest.now) }
    {
        let changes = self.u16();
        for _ in 0..changes {
            let place = self.u16();
            let count = self.byte();
            overwrite(buffer, place, self.bytes(count));
        }
    }
}

// Makes the calls that come next in a record, so many, by what reads and makes one.
fn make_calls<F: FnMut(&mut Record) -> io::Result<()>>(
    mut next: Record,
    calls: u32,
    mut call: F,
) -> io::Result<()>
    requires { F.IsAlwaysCallable call }
    ensures { Calls (λ f x a g y. CalledAtMut F.FnMut f x a g y) calls call next.entry result }
{
    for _ in 0..calls {
        call(&mut next)?;
    }
    Ok(())
}

// Replays a record: a 32-bit number of calls, and then each call, by what reads and makes the one that comes next.
pub fn replay<F: FnMut(&mut Record) -> io::Result<()>>(bytes: &[u8], call: F) -> io::Result<()>
    requires { F.IsAlwaysCallable call }
    ensures { (first : Record) × (first.rest.now ≡ drop 4 bytes.now)
        × Calls (λ f x a g y. CalledAtMut F.FnMut f x a g y) (le_at 4 bytes.now 0) call first result }
{
    let mut record = Record { rest: bytes };
    let calls = record.u32();
    make_calls(record, calls, call)
}

// The same of a record of at most 65,535 calls: of their number the low half counts.
pub fn replay_few<F: FnMut(&mut Record) -> io::Result<()>>(bytes: &[u8], call: F) -> io::Result<()>
    requires { F.IsAlwaysCallable call }
    ensures { (first : Record) × (first.rest.now ≡ drop 4 bytes.now)
        × Calls (λ f x a g y. CalledAtMut F.FnMut f x a g y) (le_at 2 bytes.now 0) call first result }
{
    let mut record = Record { rest: bytes };
    let calls = record.low_half();
    make_calls(record, calls as u32, call)
}

// Puts bytes into the buffer at `place`, as far as it goes.
fn overwrite(buffer: &mut [u8], place: usize, from: &[u8])
    ensures { buffer.new ≡ sets buffer.old place from.now }
{
    if place < buffer.len() {
        let n = from.len().min(buffer.len() - place);
        put_bytes(buffer, place, &from[..n]);
    }
}

// A digest that goes by every number and by their order, with one number more: 31 times the one so far, and the number.
#[tactic(auto, unfolding(crate::specs::Replay::mix))]
pub fn mixed(sum: u64, x: u64) -> u64
    ensures { result ≡ mix sum x }
{
    sum.wrapping_mul(31).wrapping_add(x)
}

// The digest of all numbers of a buffer.
pub fn digest<T: Copy + Into<u64>>(s: &[T]) -> u64
    ensures { (xs : List ℕ) × AllZip T.converts s.now xs × (result ≡ digest_of xs) }
{
    s.iter().fold(0, |sum, x| mixed(sum, (*x).into()))
}

// The numbers of a call and the digests of its two buffers, eight bytes each.
pub fn answer_bytes(numbers: [u64; 11], first: u64, second: u64) -> [u8; 104]
    ensures { result ≡ flat_map (bytes 8) (numbers ++ first ∷ second ∷ []) }
{
    let mut out = [0u8; 104];
    for (i, x) in numbers.iter().enumerate() {
        put(&mut out, 8 * i, 8, *x);
    }
    put(&mut out, 88, 8, first);
    put(&mut out, 96, 8, second);
    out
}
