// Request 1's calls: a run by events with its dump, and a run that continues from one.
ghost use Rattle.std.specs.Prelude.{◌≡◌, length};
ghost use Rattle.plan.specs.Answer.{numbers as Answer·numbers};
ghost use Rattle.files.specs.Demand.{ReadsBack, UnitsUsed, FreeKnown, NoFreeFits, OneSpot, OneById, AddUp, CountsOfBook, ClosedStay, ExactWaits, Handled, EventsEnd};
ghost use Rattle.files.specs.HotDay.{HotDayOfRun, BookByRating};
ghost use Rattle.files.specs.Fleets.{FleetsWithin, FleetsCarried, AsBefore};
ghost use Rattle.dump.specs.Call.{dump_answer, dump_book, dump_left, continued_to, continued_answer, continued_book};
ghost use Rattle.dump.specs.Continued.{Unbroken, FitsBuffer, Determines, BlocksPass, Continues, SessionsOfBook, Reached, InParts, EndedStays, MoreStays};
ghost use Rattle.files.specs.EvenShares.{LimitIgnored};

use dump::call;
use dump::resume::resume;
use plan::answer::run_numbers;

// Runs a plan by events; its numbers go to `numbers`, its book to `book`, its dump to `dump`.
#[unsafe(no_mangle)]
pub extern "C" fn site_dump(
    plan: &[u8],
    engine: u32,
    allowance: u32,
    book: &mut [u8],
    dump: &mut [u8],
    numbers: &mut [u64; 11],
)
    ensures answer { numbers.new ≡ Answer·numbers (dump_answer plan.now engine allowance (length book.old) (length dump.old)) }
    ensures book { book.new ≡ dump_book plan.now engine allowance book.old dump.old }
    ensures dump { dump.new ≡ dump_left plan.now engine allowance book.old dump.old }
    ensures unbroken { Unbroken plan.now allowance book.old book.new (dump_answer plan.now engine allowance (length book.old) (length dump.old)) }
    ensures fits { FitsBuffer plan.now allowance (dump_answer plan.now engine allowance (length book.old) (length dump.old)) }
    ensures determines { Determines plan.now allowance (dump_answer plan.now engine allowance (length book.old) (length dump.old)) }
    ensures blocks { BlocksPass plan.now allowance dump.new (dump_answer plan.now engine allowance (length book.old) (length dump.old)) }
    ensures continues { Continues plan.now allowance dump.new (dump_answer plan.now engine allowance (length book.old) (length dump.old)) }
    ensures sessions { SessionsOfBook plan.now allowance dump.new book.new (dump_answer plan.now engine allowance (length book.old) (length dump.old)) }
    ensures back { ReadsBack plan.now 0 allowance book.new (dump_answer plan.now engine allowance (length book.old) (length dump.old)) }
    ensures units { UnitsUsed plan.now 0 allowance (dump_answer plan.now engine allowance (length book.old) (length dump.old)) }
    ensures free { FreeKnown plan.now 0 allowance (dump_answer plan.now engine allowance (length book.old) (length dump.old)) }
    ensures settled { NoFreeFits plan.now 0 allowance (dump_answer plan.now engine allowance (length book.old) (length dump.old)) }
    ensures spots { OneSpot plan.now 0 allowance (dump_answer plan.now engine allowance (length book.old) (length dump.old)) }
    ensures ids { OneById plan.now 0 allowance book.new (dump_answer plan.now engine allowance (length book.old) (length dump.old)) }
    ensures counts { AddUp plan.now 0 allowance (dump_answer plan.now engine allowance (length book.old) (length dump.old)) }
    ensures outcomes { CountsOfBook plan.now 0 allowance book.new (dump_answer plan.now engine allowance (length book.old) (length dump.old)) }
    ensures closed { ClosedStay plan.now 0 allowance book.new (dump_answer plan.now engine allowance (length book.old) (length dump.old)) }
    ensures waits { ExactWaits plan.now 0 allowance (dump_answer plan.now engine allowance (length book.old) (length dump.old)) }
    ensures handled { Handled plan.now 0 allowance (dump_answer plan.now engine allowance (length book.old) (length dump.old)) }
    ensures events { EventsEnd plan.now 0 allowance (dump_answer plan.now engine allowance (length book.old) (length dump.old)) }
    ensures hot_day { HotDayOfRun plan.now (dump_answer plan.now engine allowance (length book.old) (length dump.old)) }
    ensures rating { BookByRating plan.now 0 book.new (dump_answer plan.now engine allowance (length book.old) (length dump.old)) }
    ensures fleets { FleetsWithin plan.now 0 allowance (dump_answer plan.now engine allowance (length book.old) (length dump.old)) }
    ensures carried { FleetsCarried plan.now book.new (dump_answer plan.now engine allowance (length book.old) (length dump.old)) }
    ensures no_fleets { AsBefore plan.now (dump_answer plan.now engine allowance (length book.old) (length dump.old)) }
    ensures no_limit { LimitIgnored plan.now 0 (dump_answer plan.now engine allowance (length book.old) (length dump.old)) }
{
    *numbers = run_numbers(call::dump(plan, engine, allowance, book, dump));
}

// Continues a run from a dump; its numbers go to `numbers`, its book to `book`.
#[unsafe(no_mangle)]
pub extern "C" fn site_continue(
    plan: &[u8],
    dump: &[u8],
    further: u32,
    book: &mut [u8],
    numbers: &mut [u64; 11],
)
    ensures answer { numbers.new ≡ Answer·numbers (continued_answer plan.now dump.now further (length book.old)) }
    ensures book { book.new ≡ continued_book plan.now dump.now further book.old }
    ensures unbroken { Unbroken plan.now (continued_to dump.now further) book.old book.new (continued_answer plan.now dump.now further (length book.old)) }
    ensures reached { Reached plan.now dump.now further (continued_answer plan.now dump.now further (length book.old)) }
    ensures parts { InParts plan.now dump.now further (continued_answer plan.now dump.now further (length book.old)) }
    ensures ended { EndedStays plan.now dump.now further book.old book.new (continued_answer plan.now dump.now further (length book.old)) }
    ensures more { MoreStays plan.now dump.now further book.old book.new (continued_answer plan.now dump.now further (length book.old)) }
    ensures back { ReadsBack plan.now 0 (continued_to dump.now further) book.new (continued_answer plan.now dump.now further (length book.old)) }
    ensures units { UnitsUsed plan.now 0 (continued_to dump.now further) (continued_answer plan.now dump.now further (length book.old)) }
    ensures free { FreeKnown plan.now 0 (continued_to dump.now further) (continued_answer plan.now dump.now further (length book.old)) }
    ensures settled { NoFreeFits plan.now 0 (continued_to dump.now further) (continued_answer plan.now dump.now further (length book.old)) }
    ensures spots { OneSpot plan.now 0 (continued_to dump.now further) (continued_answer plan.now dump.now further (length book.old)) }
    ensures ids { OneById plan.now 0 (continued_to dump.now further) book.new (continued_answer plan.now dump.now further (length book.old)) }
    ensures counts { AddUp plan.now 0 (continued_to dump.now further) (continued_answer plan.now dump.now further (length book.old)) }
    ensures outcomes { CountsOfBook plan.now 0 (continued_to dump.now further) book.new (continued_answer plan.now dump.now further (length book.old)) }
    ensures closed { ClosedStay plan.now 0 (continued_to dump.now further) book.new (continued_answer plan.now dump.now further (length book.old)) }
    ensures waits { ExactWaits plan.now 0 (continued_to dump.now further) (continued_answer plan.now dump.now further (length book.old)) }
    ensures handled { Handled plan.now 0 (continued_to dump.now further) (continued_answer plan.now dump.now further (length book.old)) }
    ensures events { EventsEnd plan.now 0 (continued_to dump.now further) (continued_answer plan.now dump.now further (length book.old)) }
    ensures hot_day { HotDayOfRun plan.now (continued_answer plan.now dump.now further (length book.old)) }
    ensures rating { BookByRating plan.now 0 book.new (continued_answer plan.now dump.now further (length book.old)) }
    ensures fleets { FleetsWithin plan.now 0 (continued_to dump.now further) (continued_answer plan.now dump.now further (length book.old)) }
    ensures carried { FleetsCarried plan.now book.new (continued_answer plan.now dump.now further (length book.old)) }
    ensures no_fleets { AsBefore plan.now (continued_answer plan.now dump.now further (length book.old)) }
    ensures no_limit { LimitIgnored plan.now 0 (continued_answer plan.now dump.now further (length book.old)) }
{
    *numbers = run_numbers(resume(plan, dump, further, book));
}
