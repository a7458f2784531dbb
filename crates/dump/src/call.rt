// A run by events that fills a dump buffer beside its book. The call takes what C lends, one by one.
ghost use Rattle.std.specs.Prelude.{◌≡◌, ◌≤◌, length};
ghost use Rattle.engine.specs.Demand.{by_events};
ghost use Rattle.files.specs.Book.{written};
ghost use Rattle.files.specs.Call.{book_after};
ghost use Rattle.files.specs.Code.Running.{Stopped};
ghost use Rattle.files.specs.Demand.{ReadsBack, UnitsUsed, FreeKnown, NoFreeFits, OneSpot, OneById, AddUp, CountsOfBook, ClosedStay, ExactWaits, Handled, EventsEnd};
ghost use Rattle.files.specs.HotDay.{HotDayOfRun, BookByRating};
ghost use Rattle.files.specs.Fleets.{FleetsWithin, FleetsCarried, AsBefore};
ghost use Rattle.files.specs.EvenShares.{LimitIgnored};
ghost use Rattle.files.specs.Read.{read_plan};
ghost use Rattle.dump.specs.Dump.{dump_of};
ghost use Rattle.dump.specs.Call.{dump_answer, dump_after};
ghost use Rattle.dump.specs.Continued.{Unbroken, FitsBuffer, Determines, BlocksPass, Continues, SessionsOfBook};

use crate::dump::put_dump;
use engine::discrete;
use engine::site::Site;
use files::check::read_admitted;
use files::loaded::LoadedPlan;
use files::stop::stop_events;
use plan::answer::{Refusal, Totals};
use plan::plan::check_blocks;

// Runs a plan that was read, and writes its book and its dump.
fn dump_site(read: LoadedPlan<'_>, allowance: u32, book: &mut [u8], dump: &mut [u8]) -> Totals
    requires room { 7168 ≤ length book.old }
    requires space { 16384 ≤ length dump.old }
    ensures stopped { Stopped read.entry.plan.now 0 (by_events (read_plan read.entry.plan.now) allowance) book.old result book.new }
    ensures dump { dump.new ≡ written (dump_of read.entry.plan.now allowance) dump.old }
{
    let LoadedPlan { plan, site } = read;
    let state = discrete::run(site, u64::from(allowance));
    put_dump(dump, plan, site, &state);
    stop_events(book, plan, site, &state)
}

// Runs a plan by events under an allowance, and writes its book and its dump. A refused call changes nothing.
pub fn dump(
    plan: &[u8],
    engine: u32,
    allowance: u32,
    book: &mut [u8],
    dump: &mut [u8],
) -> Result<Totals, Refusal>
    ensures answer { result ≡ dump_answer plan.now engine allowance (length book.old) (length dump.old) }
    ensures book { book.new ≡ book_after plan.now 0 allowance result book.old }
    ensures dump { dump.new ≡ dump_after plan.now allowance result dump.old }
    ensures unbroken { Unbroken plan.now allowance book.old book.new result }
    ensures fits { FitsBuffer plan.now allowance result }
    ensures determines { Determines plan.now allowance result }
    ensures blocks { BlocksPass plan.now allowance dump.new result }
    ensures continues { Continues plan.now allowance dump.new result }
    ensures sessions { SessionsOfBook plan.now allowance dump.new book.new result }
    ensures back { ReadsBack plan.now 0 allowance book.new result }
    ensures units { UnitsUsed plan.now 0 allowance result }
    ensures free { FreeKnown plan.now 0 allowance result }
    ensures settled { NoFreeFits plan.now 0 allowance result }
    ensures spots { OneSpot plan.now 0 allowance result }
    ensures ids { OneById plan.now 0 allowance book.new result }
    ensures counts { AddUp plan.now 0 allowance result }
    ensures outcomes { CountsOfBook plan.now 0 allowance book.new result }
    ensures closed { ClosedStay plan.now 0 allowance book.new result }
    ensures waits { ExactWaits plan.now 0 allowance result }
    ensures handled { Handled plan.now 0 allowance result }
    ensures events { EventsEnd plan.now 0 allowance result }
    ensures hot_day { HotDayOfRun plan.now result }
    ensures rating { BookByRating plan.now 0 book.new result }
    ensures fleets { FleetsWithin plan.now 0 allowance result }
    ensures carried { FleetsCarried plan.now book.new result }
    ensures no_fleets { AsBefore plan.now result }
    ensures no_limit { LimitIgnored plan.now 0 result }
{
    if 0 < engine {
        return Err(Refusal::EngineAbove);
    }
    if 10_000_000 < allowance {
        return Err(Refusal::AllowanceAbove);
    }
    if book.len() < 7168 {
        return Err(Refusal::BookUnder);
    }
    if dump.len() < 16384 {
        return Err(Refusal::DumpUnder);
    }
    check_blocks(plan)?;
    let mut site = Site::empty();
    read_admitted(plan, &mut site)?;
    let read = LoadedPlan { plan, site: &site };
    Ok(dump_site(read, allowance, book, dump))
}
