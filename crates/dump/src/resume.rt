// A run that continues from a dump: the plan is run again up to the dump's handled count, and no state is trusted from bytes.
// The calls take plan and dump one by one, as C lends them.
ghost use Rattle.std.specs.Prelude.{◌≡◌, cond, ◌≤◌, length};
ghost use Rattle.engine.specs.Demand.{by_events};
ghost use Rattle.engine.specs.Code.Simulation.{model};
ghost use Rattle.files.specs.Call.{totals, book_after};
ghost use Rattle.files.specs.Demand.{ReadsBack, UnitsUsed, FreeKnown, NoFreeFits, OneSpot, OneById, AddUp, CountsOfBook, ClosedStay, ExactWaits, Handled, EventsEnd};
ghost use Rattle.files.specs.HotDay.{HotDayOfRun, BookByRating};
ghost use Rattle.files.specs.Fleets.{FleetsWithin, FleetsCarried, AsBefore};
ghost use Rattle.files.specs.EvenShares.{LimitIgnored};
ghost use Rattle.files.specs.Read.{read_plan};
ghost use Rattle.dump.specs.Dump.{dump_bytes, starts_with, is_dump};
ghost use Rattle.dump.specs.Call.{continued_to, continued_answer};
ghost use Rattle.dump.specs.Code.Dumping.{Dumpable};
ghost use Rattle.dump.specs.Continued.{Unbroken, Reached, InParts, EndedStays, MoreStays};

use crate::dump::put_dump;
use engine::discrete;
use engine::discrete::State;
use engine::site::Site;
use files::check::read_admitted;
use files::loaded::LoadedPlan;
use files::stop::stop_events;
use plan::answer::{Refusal, Totals};
use plan::bytes::u64_at;
use plan::plan::check_blocks;

// Whether the bytes lent begin with the dump of a state.
pub fn is_dump(dump: &[u8], plan: &[u8], site: &Site, state: &State) -> bool
    requires { Dumpable plan.now site.now state.now }
    ensures { result ≡ starts_with (dump_bytes plan.now (model state.now)) dump.now }
{
    let mut laid = [0u8; 16384];
    let n = put_dump(&mut laid, plan, site, state);
    let file = &laid[..n];
    dump.starts_with(file)
}

// Continues a plan that was read from its dump.
fn resume_site(
    read: LoadedPlan<'_>,
    dump: &[u8],
    further: u32,
    book: &mut [u8],
) -> Result<Totals, Refusal>
    requires room { 7168 ≤ length book.old }
    ensures answer { result ≡ cond (is_dump read.entry.plan.now dump.now) (Ok (totals (by_events (read_plan read.entry.plan.now) (continued_to dump.now further)))) (Err Refusal.OtherDump) }
    ensures book { book.new ≡ book_after read.entry.plan.now 0 (continued_to dump.now further) result book.old }
    ensures back { ReadsBack read.entry.plan.now 0 (continued_to dump.now further) book.new result }
{
    let LoadedPlan { plan, site } = read;
    if dump.len() < 512 {
        return Err(Refusal::OtherDump);
    }
    let mut state = discrete::run(site, u64_at(dump, 16));
    if !is_dump(dump, plan, site, &state) {
        return Err(Refusal::OtherDump);
    }
    discrete::go_on(site, &mut state, u64::from(further));
    Ok(stop_events(book, plan, site, &state))
}

// Continues a run by events from its dump, by some further events, and writes the book. A refused call changes nothing.
pub fn resume(plan: &[u8], dump: &[u8], further: u32, book: &mut [u8]) -> Result<Totals, Refusal>
    ensures answer { result ≡ continued_answer plan.now dump.now further (length book.old) }
    ensures book { book.new ≡ book_after plan.now 0 (continued_to dump.now further) result book.old }
    ensures unbroken { Unbroken plan.now (continued_to dump.now further) book.old book.new result }
    ensures reached { Reached plan.now dump.now further result }
    ensures parts { InParts plan.now dump.now further result }
    ensures ended { EndedStays plan.now dump.now further book.old book.new result }
    ensures more { MoreStays plan.now dump.now further book.old book.new result }
    ensures back { ReadsBack plan.now 0 (continued_to dump.now further) book.new result }
    ensures units { UnitsUsed plan.now 0 (continued_to dump.now further) result }
    ensures free { FreeKnown plan.now 0 (continued_to dump.now further) result }
    ensures settled { NoFreeFits plan.now 0 (continued_to dump.now further) result }
    ensures spots { OneSpot plan.now 0 (continued_to dump.now further) result }
    ensures ids { OneById plan.now 0 (continued_to dump.now further) book.new result }
    ensures counts { AddUp plan.now 0 (continued_to dump.now further) result }
    ensures outcomes { CountsOfBook plan.now 0 (continued_to dump.now further) book.new result }
    ensures closed { ClosedStay plan.now 0 (continued_to dump.now further) book.new result }
    ensures waits { ExactWaits plan.now 0 (continued_to dump.now further) result }
    ensures handled { Handled plan.now 0 (continued_to dump.now further) result }
    ensures events { EventsEnd plan.now 0 (continued_to dump.now further) result }
    ensures hot_day { HotDayOfRun plan.now result }
    ensures rating { BookByRating plan.now 0 book.new result }
    ensures fleets { FleetsWithin plan.now 0 (continued_to dump.now further) result }
    ensures carried { FleetsCarried plan.now book.new result }
    ensures no_fleets { AsBefore plan.now result }
    ensures no_limit { LimitIgnored plan.now 0 result }
{
    if 10_000_000 < further {
        return Err(Refusal::AllowanceAbove);
    }
    if book.len() < 7168 {
        return Err(Refusal::BookUnder);
    }
    check_blocks(plan)?;
    let mut site = Site::empty();
    read_admitted(plan, &mut site)?;
    let read = LoadedPlan { plan, site: &site };
    resume_site(read, dump, further, book)
}
