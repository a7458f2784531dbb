// Little-endian numbers in a slice.
ghost use Rattle.std.specs.Prelude.{◌≡◌, ◌+◌, ◌<◌, ◌≤◌, length};
ghost use Rattle.std.proofs.lemmas.List.Edits.{sets};
ghost use Rattle.plan.specs.Bytes.{le_at, bytes, fields, in_a_row};

// The number in the n bytes of s from at. For every width in one loop: the library's `from_le_bytes` takes an array of one.
pub fn get(s: &[u8], at: usize, n: usize) -> u64
    requires { (n ≤ 8) × (at + n ≤ length s.now) }
    ensures { result ≡ le_at n s.now at }
{
    let mut v: u64 = 0;
    for i in (0..n).rev() {
        v = v * 256 + u64::from(s[at + i]);
    }
    v
}

// Of each width: places and counts as `usize`, wider numbers in a type of their width. From one function for all, every caller would have to
// narrow the number.
pub fn u8_at(s: &[u8], at: usize) -> usize
    requires { at + 1 ≤ length s.now }
    ensures { (result ≡ le_at 1 s.now at) × (result < 256) }
{
    get(s, at, 1) as usize
}

pub fn u16_at(s: &[u8], at: usize) -> usize
    requires { at + 2 ≤ length s.now }
    ensures { (result ≡ le_at 2 s.now at) × (result < 65536) }
{
    get(s, at, 2) as usize
}

pub fn u32_at(s: &[u8], at: usize) -> u32
    requires { at + 4 ≤ length s.now }
    ensures { result ≡ le_at 4 s.now at }
{
    get(s, at, 4) as u32
}

pub fn u64_at(s: &[u8], at: usize) -> u64
    requires { at + 8 ≤ length s.now }
    ensures { result ≡ le_at 8 s.now at }
{
    get(s, at, 8)
}

// Stores the n lowest bytes of v into s from at.
pub fn put(s: &mut [u8], at: usize, n: usize, v: u64)
    requires { at + n ≤ length s.old }
    ensures { s.new ≡ sets s.old at (bytes n v) }
{
    let mut rest = v;
    for i in 0..n {
        s[at + i] = (rest % 256) as u8;
        rest /= 256;
    }
}

// Stores the bytes of `from` into s from at.
pub fn put_bytes(s: &mut [u8], at: usize, from: &[u8])
    requires { at + length from.now ≤ length s.old }
    ensures { s.new ≡ sets s.old at from.now }
{
    s[at..at + from.len()].copy_from_slice(from);
}

// Stores fields, one after the other, into s from at: of each its width and its value.
pub fn put_fields(s: &mut [u8], at: usize, f: &[(usize, u64)])
    requires { at + length (fields (in_a_row f.now)) ≤ length s.old }
    ensures { s.new ≡ sets s.old at (fields (in_a_row f.now)) }
{
    let mut p = at;
    for &(n, v) in f {
        put(s, p, n, v);
        p += n;
    }
}
