// Writes a practice day: standard input has a 32-bit seed, a 32-bit count and a plan, standard output gets the day's plan, or a line that refuses
// it. A read or a write that fails ends it with the error.
#![tactic(auto)]

ghost use Rattle.std.specs.Prelude.{◌≡◌, take};
ghost use Rattle.io.specs.Counts.{IsPrefixLen};
ghost use Rattle.files.specs.Book.{written};
ghost use Rattle.practice_day.specs.Output.{output};

use plan::answer::check_numbers;
use plan::places::{Kind, PlanFile};
use practice::call::practice;
use program::{behind, number_at, put_line};
use reading::read_full;

// Makes the input's day. The first bytes of out, as many as the answer says, are the program's output; the others stay.
fn reply(input: &[u8], out: &mut [u8; 57856]) -> usize
    ensures counted { IsPrefixLen result out.new }
    ensures text { take result out.new ≡ output input.now }
    ensures whole { out.new ≡ written (output input.now) out.old }
{
    let plan = behind(input, 8);
    let count = number_at(input, 4);
    match practice(plan, number_at(input, 0), count, out) {
        Err(refusal) => {
            let numbers = check_numbers(Err(refusal));
            put_line(out, &numbers[..3])
        }
        Ok(()) => {
            let file = PlanFile { bytes: plan };
            512 * (file.start_of(Kind::Vehicle) + count as usize)
        }
    }
}

// A plan has at most 57,856 bytes: of a longer input enough is read to see that it is longer.
fn main(rt: HostRuntime) -> std::io::Result<()> {
    let mut input = [0u8; 57865];
    let n = read_full(&mut rt.stdin(), &mut input)?;
    let mut out = [0u8; 57856];
    let k = reply(&input[..n], &mut out);
    rt.write_all(&out[..k])
}
