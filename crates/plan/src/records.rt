// Records of one width, one after the other, and blocks of them.
ghost use Rattle.std.specs.Prelude.{◌≡◌, ℕ, ◌+◌, ◌-◌, ◌*◌, ◌^◌, ◌<◌, ◌≤◌, List, ◌++◌, length};
ghost use Rattle.std.proofs.lemmas.List.Edits.{sets};
ghost use Rattle.plan.specs.Bytes.{bytes, pieces};
ghost use Rattle.plan.specs.Blocks.{sealed, record_block};

use crate::blocks::seal;
use crate::bytes::put;

// A row of records, each of which takes W bytes.
pub trait Records<const W: usize> {
    // The bytes of the record at an index, or what stands where there is none.
    ghost slot: { Self → ℕ → List ℕ };

    // Stores the record at the index k into s from at.
    fn put(&self, s: &mut [u8], at: usize, k: usize)
        requires { at + W ≤ length s.old }
        ensures { s.new ≡ sets s.old at (slot self.now k) };

    ghost wide: { (x : Self) (k : ℕ) → length (slot x k) ≡ W };
}

// Stores n of them, those from the index k on, into s from at.
pub fn put_records<const W: usize, R: Records<W>>(
    s: &mut [u8],
    at: usize,
    records: &R,
    k: usize,
    n: usize,
)
    requires room { at + W * n ≤ length s.old }
    requires last { k + n < 2 ^ 64 }
    ensures { s.new ≡ sets s.old at (pieces (R.slot records.now) k n) }
{
    for i in 0..n {
        records.put(s, at + W * i, k + i);
    }
}

// Stores them as a block, the place-th of its file, with zero bytes up to its check.
fn put_block<const W: usize, R: Records<W>>(
    s: &mut [u8],
    at: usize,
    place: u32,
    records: &R,
    k: usize,
    n: usize,
)
    requires room { at + 512 ≤ length s.old }
    requires few { W * n ≤ 508 }
    requires last { k + n < 2 ^ 64 }
    ensures { s.new ≡ sets s.old at (sealed place (pieces (R.slot records.now) k n ++ bytes (508 - W * n) 0)) }
{
    let long = W * n;
    put_records(s, at, records, k, n);
    put(s, at + long, 508 - long, 0);
    seal(s, at, place);
}

// Stores the first blocks of them, n a block, into s from at; the first block is the place-th of its file.
pub fn put_blocks<const W: usize, R: Records<W>>(
    s: &mut [u8],
    at: usize,
    place: u32,
    records: &R,
    n: usize,
    blocks: usize,
)
    requires room { at + 512 * blocks ≤ length s.old }
    requires few { W * n ≤ 508 }
    requires places { place + blocks < 2 ^ 32 }
    requires last { n * blocks < 2 ^ 64 }
    ensures { s.new ≡ sets s.old at (pieces (record_block (R.slot records.now) W n place) 0 blocks) }
{
    for j in 0..blocks {
        put_block(s, at + 512 * j, place + j as u32, records, n * j, n);
    }
}
