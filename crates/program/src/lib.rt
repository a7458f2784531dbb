// What the program writes for an input: an engine byte, a 32-bit allowance and a plan give the book's blocks, or the refusal.
#![tactic(auto)]

ghost use Rattle.std.specs.Prelude.{◌≡◌, cond, [], ◌∷◌, ◌++◌, ◌+◌, ◌*◌, ◌/◌, ◌≤◌, ◌<◌, ◌^◌, ltb, length, take, drop};
ghost use Rattle.std.proofs.lemmas.List.Edits.{sets};
ghost use Rattle.io.specs.Counts.{IsPrefixLen};
ghost use Rattle.plan.specs.Bytes.{le_at};
ghost use Rattle.files.specs.Book.{session_count, written};
ghost use Rattle.program.specs.Output.{decimal, line, output};

use files::call::run;
use plan::answer::run_numbers;
use plan::bytes::put_bytes;

// The byte at k; missing bytes are zero. That of a record that is replayed moves on, and is no function of a place.
fn byte_at(input: &[u8], k: usize) -> u32
    ensures { (result ≡ le_at 1 input.now k) × (result < 256) }
{
    u32::from(input.get(k).copied().unwrap_or(0))
}

// The 32-bit number at k; missing bytes are zero.
pub fn number_at(input: &[u8], k: usize) -> u32
    requires { k + 3 < 2 ^ 64 }
    ensures { result ≡ le_at 4 input.now k }
{
    byte_at(input, k)
        + 256 * byte_at(input, k + 1)
        + 65536 * byte_at(input, k + 2)
        + 16777216 * byte_at(input, k + 3)
}

// What follows the first n bytes.
pub fn behind(input: &[u8], n: usize) -> &[u8]
    ensures { result.now ≡ drop n input.now }
{
    &input[input.len().min(n)..]
}

// The bytes of a book's blocks: five sessions a block after the header.
fn book_length(book: &[u8]) -> usize
    ensures { result ≡ 512 + 512 * ((session_count book.now + 4) / 5) }
{
    let sessions = byte_at(book, 4) + 256 * byte_at(book, 5);
    512 + 512 * ((sessions as usize + 4) / 5)
}

// Stores a number in decimal and the byte `last` into out from at, and gives the place behind them.
fn put_decimal(out: &mut [u8], at: usize, n: u64, last: u8) -> usize
    requires { at + 21 ≤ length out.old }
    ensures bounded { result ≤ at + 21 }
    ensures place { result ≡ at + length (decimal n ++ (last ∷ [])) }
    ensures stored { out.new ≡ sets out.old at (decimal n ++ (last ∷ [])) }
{
    let mut digits = [0u8; 20];
    let k = io::decimal(n, &mut digits);
    put_bytes(out, at, &digits[..k]);
    out[at + k] = last;
    at + k + 1
}

// What stands behind the number at the index i of n: a space, or a newline behind the last.
fn byte_behind(i: usize, n: usize) -> u8
    requires { i < n }
    ensures { result ≡ cond (ltb (i + 1) n) 32 10 }
{
    if i + 1 < n { b' ' } else { b'\n' }
}

// Stores numbers as a line into out, and gives its length.
pub fn put_line(out: &mut [u8], numbers: &[u64]) -> usize
    requires { 21 * length numbers.now ≤ length out.old }
    ensures length { result ≡ length (line numbers.now) }
    ensures stored { out.new ≡ written (line numbers.now) out.old }
{
    let mut at = 0;
    for (i, x) in numbers.iter().enumerate() {
        at = put_decimal(out, at, *x, byte_behind(i, numbers.len()));
    }
    at
}

// Runs the input's plan. The first bytes of out, as many as the answer says, are the program's output; the others stay.
pub fn reply(input: &[u8], out: &mut [u8; 7168]) -> usize
    ensures counted { IsPrefixLen result out.new }
    ensures text { take result out.new ≡ output input.now }
    ensures whole { out.new ≡ written (output input.now) out.old }
{
    let plan = behind(input, 5);
    let answer = run(plan, byte_at(input, 0), number_at(input, 1), out);
    let numbers = run_numbers(answer);
    if numbers[0] == 0 {
        return book_length(out);
    }
    put_line(out, &numbers[..3])
}
