// The call that makes a practice day.
ghost use Rattle.std.specs.Prelude.{◌≡◌, length};
ghost use Rattle.files.specs.Check.{Untouched};
ghost use Rattle.practice.specs.Call.{practice_answer, practice_after};
ghost use Rattle.practice.specs.Promises.{PlanOfCopies, EqualBytes, OnlyPairsRefuse, PastStays};

use crate::practice_plan::put_practice_plan;
use files::check::check_plan;
use files::counted::CountedPlan;
use plan::answer::Refusal;
use plan::places::PlanFile;

// Makes a plan with `count` copies of the one vehicle of a plan, drawn from a seed. A refused call changes nothing.
pub fn practice(plan: &[u8], seed: u32, count: u32, out: &mut [u8]) -> Result<(), Refusal>
    ensures answer { result ≡ practice_answer plan.now seed count (length out.old) }
    ensures out { out.new ≡ practice_after plan.now seed count result out.old }
    ensures copies { PlanOfCopies plan.now seed count out.new result }
    ensures equal { EqualBytes plan.now seed count out.new result }
    ensures only_12 { OnlyPairsRefuse plan.now seed count out.new result }
    ensures past { PastStays plan.now seed count out.old out.new result }
    ensures untouched { Untouched out.old out.new result }
{
    check_plan(plan)?;
    let plan = CountedPlan {
        file: PlanFile { bytes: plan },
    };
    let one = plan.file.vehicle_count() == 1;
    if (seed == 0) | (count == 0) | (64 < count) | (out.len() < 57856) | !one {
        return Err(Refusal::NoPracticeDay);
    }
    put_practice_plan(out, &plan, seed, count);
    Ok(())
}
