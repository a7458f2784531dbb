// Request 11's call: a practice day.
ghost use Rattle.std.specs.Prelude.{◌≡◌, length};
ghost use Rattle.plan.specs.Answer.{check_numbers};
ghost use Rattle.files.specs.Check.{Untouched};
ghost use Rattle.practice.specs.Call.{practice_answer, practice_left};
ghost use Rattle.practice.specs.Promises.{PlanOfCopies, EqualBytes, OnlyPairsRefuse, PastStays};

use plan::answer::check_numbers;
use practice::call::practice;

// Makes a plan with `count` copies of the one vehicle of a plan, drawn from a seed; its numbers go to `numbers`, the written plan to `out`.
#[unsafe(no_mangle)]
pub extern "C" fn site_practice(
    plan: &[u8],
    seed: u32,
    count: u32,
    out: &mut [u8],
    numbers: &mut [u64; 11],
)
    ensures answer { numbers.new ≡ check_numbers (practice_answer plan.now seed count (length out.old)) }
    ensures out { out.new ≡ practice_left plan.now seed count out.old }
    ensures copies { PlanOfCopies plan.now seed count out.new (practice_answer plan.now seed count (length out.old)) }
    ensures equal { EqualBytes plan.now seed count out.new (practice_answer plan.now seed count (length out.old)) }
    ensures only_12 { OnlyPairsRefuse plan.now seed count out.new (practice_answer plan.now seed count (length out.old)) }
    ensures past { PastStays plan.now seed count out.old out.new (practice_answer plan.now seed count (length out.old)) }
    ensures untouched { Untouched out.old out.new (practice_answer plan.now seed count (length out.old)) }
{
    *numbers = check_numbers(practice(plan, seed, count, out));
}
