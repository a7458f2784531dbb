// The two calls: check a plan, and run it by either engine under an allowance. They take what C lends, one by one.
ghost use Rattle.std.specs.Prelude.{◌≡◌, ◌≤◌, length};
ghost use Rattle.files.specs.Check.{check_plan, AllSealed};
ghost use Rattle.files.specs.Code.Running.{engine_number, Stopped};
ghost use Rattle.files.specs.Read.{read_plan};
ghost use Rattle.files.specs.Call.{stop_of, answer_of, book_after};
ghost use Rattle.files.specs.Demand.{ReadsBack, UnitsUsed, FreeKnown, NoFreeFits, OneSpot, OneById, AddUp, CountsOfBook, ClosedStay, ExactWaits, Handled, EventsEnd, StepsEnd};
ghost use Rattle.files.specs.HotDay.{HotDayOfPlan, HotDayOfRun, BookByRating};
ghost use Rattle.files.specs.Fleets.{FleetsWithin, FleetsCarried, AsBefore};
ghost use Rattle.files.specs.EvenShares.{SharedEvenly, LimitIgnored};

use crate::check::{check_plan, read_admitted};
use crate::engines::Engine;
use crate::loaded::LoadedPlan;
use crate::stop::{stop_events, stop_steps};
use engine::rising_site::RisingSite;
use engine::site::Site;
use engine::{discrete, timestep};
use plan::answer::{Refusal, Totals};
use plan::plan::check_blocks;

// Runs a plan that was read, and writes its book.
fn run_site(read: LoadedPlan<'_>, engine: Engine, allowance: u32, book: &mut [u8]) -> Totals
    requires allowance { allowance ≤ 10000000 }
    requires room { 7168 ≤ length book.old }
    ensures { Stopped read.entry.plan.now (engine_number engine) (stop_of (read_plan read.entry.plan.now) (engine_number engine) allowance) book.old result book.new }
{
    let LoadedPlan { plan, site } = read;
    let allowance = u64::from(allowance);
    match engine {
        Engine::Events => {
            let state = discrete::run(site, allowance);
            stop_events(book, plan, site, &state)
        }
        Engine::Steps => {
            let run = timestep::run(RisingSite { site }, allowance);
            stop_steps(book, plan, site, &run)
        }
    }
}

// Checks a plan.
pub fn check(plan: &[u8]) -> Result<(), Refusal>
    ensures answer { result ≡ check_plan plan.now }
    ensures blocks { AllSealed plan.now result }
    ensures hot_day { HotDayOfPlan plan.now result }
{
    check_plan(plan)
}

// Runs a plan by an engine under an allowance, and writes its book. A refused call changes nothing.
pub fn run(plan: &[u8], engine: u32, allowance: u32, book: &mut [u8]) -> Result<Totals, Refusal>
    ensures answer { result ≡ answer_of plan.now engine allowance (length book.old) }
    ensures book { book.new ≡ book_after plan.now engine allowance result book.old }
    ensures back { ReadsBack plan.now engine allowance book.new result }
    ensures units { UnitsUsed plan.now engine allowance result }
    ensures free { FreeKnown plan.now engine allowance result }
    ensures settled { NoFreeFits plan.now engine allowance result }
    ensures spots { OneSpot plan.now engine allowance result }
    ensures ids { OneById plan.now engine allowance book.new result }
    ensures counts { AddUp plan.now engine allowance result }
    ensures outcomes { CountsOfBook plan.now engine allowance book.new result }
    ensures closed { ClosedStay plan.now engine allowance book.new result }
    ensures waits { ExactWaits plan.now engine allowance result }
    ensures handled { Handled plan.now engine allowance result }
    ensures events { EventsEnd plan.now engine allowance result }
    ensures steps { StepsEnd plan.now engine allowance result }
    ensures shares { SharedEvenly plan.now engine result }
    ensures hot_day { HotDayOfRun plan.now result }
    ensures rating { BookByRating plan.now engine book.new result }
    ensures fleets { FleetsWithin plan.now engine allowance result }
    ensures carried { FleetsCarried plan.now book.new result }
    ensures no_fleets { AsBefore plan.now result }
    ensures no_limit { LimitIgnored plan.now engine result }
{
    let engine = Engine::try_from(engine)?;
    if 10_000_000 < allowance {
        return Err(Refusal::AllowanceAbove);
    }
    if book.len() < 7168 {
        return Err(Refusal::BookUnder);
    }
    check_blocks(plan)?;
    let mut site = Site::empty();
    read_admitted(plan, &mut site)?;
    let read = LoadedPlan { plan, site: &site };
    Ok(run_site(read, engine, allowance, book))
}
