// A check of a plan: the refusals 4 to 12.
ghost use Rattle.std.specs.Prelude.{◌≡◌};
ghost use Rattle.engine.specs.Code.Simulation.{plan_of};
ghost use Rattle.files.specs.Code.Reading.{Admitted, Reads};
ghost use Rattle.files.specs.Read.{read_plan};
ghost use Rattle.files.specs.Pairs.{failing_pair};
ghost use Rattle.files.specs.Check.{pair_answer, check_plan};

use crate::counted::CountedPlan;
use crate::pairs::failing_pair;
use crate::read::read_site;
use engine::site::Site;
use plan::answer::Refusal;
use plan::places::{Kind, PlanFile};
use plan::plan::check_blocks;

// What a plan's failing pair means: its blocks cannot charge.
pub fn pair_answer(plan: &CountedPlan, pair: Option<(usize, usize)>) -> Result<(), Refusal>
    requires { pair ≡ failing_pair (read_plan plan.now.file) }
    ensures { result ≡ pair_answer plan.now.file pair }
{
    match pair {
        None => Ok(()),
        Some((v, c)) => {
            Err(Refusal::CannotCharge(
                plan.file.place_of(Kind::Vehicle, v),
                plan.file.place_of(Kind::Charger, c),
            ))
        }
    }
}

// Reads a plan whose blocks are fine into a site, and tests its pairs. Its callers test the blocks before they make the site: to fill one takes
// longer than to refuse most plans.
pub fn read_admitted(plan: &[u8], site: &mut Site) -> Result<(), Refusal>
    requires { Admitted plan.now }
    ensures answer { Reads plan.now site.new result }
    ensures site { plan_of site.new ≡ read_plan plan.now }
{
    let plan = CountedPlan {
        file: PlanFile { bytes: plan },
    };
    read_site(site, &plan);
    pair_answer(&plan, failing_pair(site))
}

// Reads a plan into a site, if it is fine.
#[tactic(auto, using(crate::proofs::check::PairLaws::blocks_refused))]
pub fn read_plan(plan: &[u8], site: &mut Site) -> Result<(), Refusal>
    ensures answer { Reads plan.now site.new result }
    ensures site { Admitted plan.now → plan_of site.new ≡ read_plan plan.now }
{
    check_blocks(plan)?;
    read_admitted(plan, site)
}

// What a check of a plan answers.
#[tactic(auto, using(crate::proofs::check::PairLaws::blocks_refused))]
pub fn check_plan(plan: &[u8]) -> Result<(), Refusal>
    ensures { result ≡ check_plan plan.now }
{
    check_blocks(plan)?;
    let mut site = Site::empty();
    read_admitted(plan, &mut site)
}
