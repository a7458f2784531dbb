// A block of a file: 512 bytes, the last four of them its check.
ghost use Rattle.std.specs.Prelude.{◌≡◌, ◌+◌, ◌*◌, ◌<◌, ◌≤◌, length, take, drop};
ghost use Rattle.std.proofs.lemmas.List.Edits.{sets};
ghost use Rattle.plan.specs.Bytes.{bytes};
ghost use Rattle.plan.specs.Blocks.{check_of, passes as Blocks·passes, block as Blocks·block, whole_blocks};

use crate::bytes::{put, u32_at};

// The check of the block b, the place-th of its file.
pub fn check_of(b: &[u8], place: u32) -> u32
    requires { 508 ≤ length b.now }
    ensures { result ≡ check_of place b.now }
{
    let mut sum = place;
    for i in 0..127 {
        sum = sum.wrapping_add(u32_at(b, 4 * i));
    }
    sum
}

// Stores the check of the block of s at at, the place-th of its file. The block lies anywhere in a longer buffer, so no array type says its room.
pub fn seal(s: &mut [u8], at: usize, place: u32)
    requires { at + 512 ≤ length s.old }
    ensures { s.new ≡ sets s.old (at + 508) (bytes 4 (check_of place (take 508 (drop at s.old)))) }
{
    let sum = check_of(&s[at..at + 508], place);
    put(s, at + 508, 4, sum as u64);
}

// The block at the index k of a file.
pub fn block(file: &[u8], k: usize) -> &[u8; 512]
    requires { 512 * k + 512 ≤ length file.now }
    ensures { result.now ≡ Blocks·block file.now k }
{
    file[512 * k..].first_chunk().unwrap()
}

// The block at the index k of a file has the check of its place.
pub fn passes(file: &[u8], k: usize) -> bool
    requires { (512 * k + 512 ≤ length file.now) × (k < 65536) }
    ensures { result ≡ Blocks·passes (k + 1) (Blocks·block file.now k) }
{
    let b = block(file, k);
    let sum = check_of(b, k as u32 + 1);
    u32_at(b, 508) == sum
}

// n bytes are whole blocks, at least one and no more than `most`.
pub fn whole_blocks(n: usize, most: usize) -> bool
    ensures { result ≡ whole_blocks n most }
{
    (0 < n) & (n % 512 == 0) & (n / 512 <= most)
}
