// The call that plays a script on a panel beside a run.
ghost use Rattle.std.specs.Prelude.{◌≡◌, length};
ghost use Rattle.files.specs.Check.{Untouched};
ghost use Rattle.panel.specs.Call.{panel_answer, panel_after};
ghost use Rattle.panel.specs.Promises.{Shows, ShowsStatus, Pending, Enables, Raises, FreeShowZero, AnswersDone, AnswersOutside, AnswersReadOnly, PastStays};

use crate::panel::Panel;
use crate::script::within_allowance;
use engine::site::Site;
use files::check::read_admitted;
use files::loaded::LoadedPlan;
use plan::answer::Refusal;
use plan::plan::check_blocks;

// Plays a script on a panel beside a step run of a plan. A refused call changes nothing.
pub fn panel(plan: &[u8], script: &[u64], out: &mut [u8]) -> Result<(), Refusal>
    ensures answer { result ≡ panel_answer plan.now script.now (length out.old) }
    ensures out { out.new ≡ panel_after plan.now script.now result out.old }
    ensures shows { Shows plan.now script.now out.old out.new result }
    ensures status { ShowsStatus plan.now script.now out.old out.new result }
    ensures pending { Pending plan.now script.now out.old out.new result }
    ensures enables { Enables plan.now script.now out.old out.new result }
    ensures raises { Raises plan.now script.now out.old out.new result }
    ensures free { FreeShowZero plan.now script.now out.old out.new result }
    ensures done { AnswersDone plan.now script.now out.old out.new result }
    ensures outside { AnswersOutside plan.now script.now out.old out.new result }
    ensures read_only { AnswersReadOnly plan.now script.now out.old out.new result }
    ensures past { PastStays plan.now script.now out.old out.new result }
    ensures untouched { Untouched out.old out.new result }
{
    let script = &script[..(out.len() / 2).min(script.len())];
    if !within_allowance(script) {
        return Err(Refusal::AllowanceAbove);
    }
    check_blocks(plan)?;
    let mut site = Site::empty();
    read_admitted(plan, &mut site)?;
    let mut panel = Panel::start(LoadedPlan { plan, site: &site });
    panel.play(script, out);
    Ok(())
}
