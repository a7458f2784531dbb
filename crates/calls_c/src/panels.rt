// Request 12's call: a script played on a panel.
ghost use Rattle.std.specs.Prelude.{◌≡◌, length};
ghost use Rattle.plan.specs.Answer.{check_numbers};
ghost use Rattle.files.specs.Check.{Untouched};
ghost use Rattle.panel.specs.Call.{panel_answer, panel_left};
ghost use Rattle.panel.specs.Promises.{Shows, ShowsStatus, Pending, Enables, Raises, FreeShowZero, AnswersDone, AnswersOutside, AnswersReadOnly, PastStays};

use panel::call::panel;
use plan::answer::check_numbers;

// Plays a script on a panel beside a step run of a plan; its numbers go to `numbers`, the answer and the byte of each operation to `out`.
#[unsafe(no_mangle)]
pub extern "C" fn site_panel(plan: &[u8], script: &[u64], out: &mut [u8], numbers: &mut [u64; 11])
    ensures answer { numbers.new ≡ check_numbers (panel_answer plan.now script.now (length out.old)) }
    ensures out { out.new ≡ panel_left plan.now script.now out.old }
    ensures shows { Shows plan.now script.now out.old out.new (panel_answer plan.now script.now (length out.old)) }
    ensures status { ShowsStatus plan.now script.now out.old out.new (panel_answer plan.now script.now (length out.old)) }
    ensures pending { Pending plan.now script.now out.old out.new (panel_answer plan.now script.now (length out.old)) }
    ensures enables { Enables plan.now script.now out.old out.new (panel_answer plan.now script.now (length out.old)) }
    ensures raises { Raises plan.now script.now out.old out.new (panel_answer plan.now script.now (length out.old)) }
    ensures free { FreeShowZero plan.now script.now out.old out.new (panel_answer plan.now script.now (length out.old)) }
    ensures done { AnswersDone plan.now script.now out.old out.new (panel_answer plan.now script.now (length out.old)) }
    ensures outside { AnswersOutside plan.now script.now out.old out.new (panel_answer plan.now script.now (length out.old)) }
    ensures read_only { AnswersReadOnly plan.now script.now out.old out.new (panel_answer plan.now script.now (length out.old)) }
    ensures past { PastStays plan.now script.now out.old out.new (panel_answer plan.now script.now (length out.old)) }
    ensures untouched { Untouched out.old out.new (panel_answer plan.now script.now (length out.old)) }
{
    *numbers = check_numbers(panel(plan, script, out));
}
