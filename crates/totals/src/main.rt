// Sums up a book: standard input, a line of its totals, standard output. A read or a write that fails ends it with the error.
#![tactic(auto)]

ghost use Rattle.std.specs.Prelude.{◌≡◌, take};
ghost use Rattle.io.specs.Counts.{IsPrefixLen};
ghost use Rattle.files.specs.Book.{written};
ghost use Rattle.totals.specs.Output.{totals_numbers, output};

use book_reader::totals::{BookTotals, totals};
use curve::float::to_bits;
use plan::answer::check_numbers;
use program::put_line;
use reading::read_full;

fn totals_numbers(t: BookTotals) -> [u64; 7]
    ensures { result ≡ totals_numbers t }
{
    let energy = to_bits(t.energy.0);
    [
        0,
        t.still_open,
        t.charged,
        t.reneged,
        t.balked,
        energy,
        t.longest_wait,
    ]
}

// Sums up a book. The first bytes of out, as many as the answer says, are the program's output; the others stay.
fn reply(book: &[u8], out: &mut [u8; 147]) -> usize
    ensures counted { IsPrefixLen result out.new }
    ensures text { take result out.new ≡ output book.now }
    ensures whole { out.new ≡ written (output book.now) out.old }
{
    match totals(book) {
        Err(refusal) => {
            let numbers = check_numbers(Err(refusal));
            put_line(out, &numbers[..3])
        }
        Ok(t) => put_line(out, &totals_numbers(t)),
    }
}

// A book has at most 7,168 bytes: of a longer input enough is read to see that it is longer.
fn main(rt: HostRuntime) -> std::io::Result<()> {
    let mut input = [0u8; 7169];
    let n = read_full(&mut rt.stdin(), &mut input)?;
    let mut out = [0u8; 147];
    let k = reply(&input[..n], &mut out);
    rt.write_all(&out[..k])
}
