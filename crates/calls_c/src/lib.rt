// The calls, exported for C and Rust. A slice is a pointer and a length; the eleven numbers go to an array of the caller's.
#![tactic(auto)]

mod bookings;
mod books;
mod dumps;
mod panels;
mod practice_days;

ghost use Rattle.std.specs.Prelude.{◌≡◌, length};
ghost use Rattle.files.specs.Check.{check_plan, AllSealed};
ghost use Rattle.plan.specs.Answer.{check_numbers, numbers as Answer·numbers};
ghost use Rattle.files.specs.Call.{answer_of, book_left};
ghost use Rattle.files.specs.Demand.{ReadsBack, UnitsUsed, FreeKnown, NoFreeFits, OneSpot, OneById, AddUp, CountsOfBook, ClosedStay, ExactWaits, Handled, EventsEnd, StepsEnd};
ghost use Rattle.files.specs.HotDay.{HotDayOfPlan, HotDayOfRun, BookByRating};
ghost use Rattle.files.specs.Fleets.{FleetsWithin, FleetsCarried, AsBefore};
ghost use Rattle.files.specs.EvenShares.{SharedEvenly, LimitIgnored};

use files::call::{check, run};
use plan::answer::{check_numbers, run_numbers};

// Checks a plan; its numbers go to `numbers`.
#[unsafe(no_mangle)]
pub extern "C" fn site_check(plan: &[u8], numbers: &mut [u64; 11])
    ensures answer { numbers.new ≡ check_numbers (check_plan plan.now) }
    ensures blocks { AllSealed plan.now (check_plan plan.now) }
    ensures hot_day { HotDayOfPlan plan.now (check_plan plan.now) }
{
    *numbers = check_numbers(check(plan));
}

// Runs a plan; its numbers go to `numbers`, its book to `book`.
#[unsafe(no_mangle)]
pub extern "C" fn site_run(
    plan: &[u8],
    engine: u32,
    allowance: u32,
    book: &mut [u8],
    numbers: &mut [u64; 11],
)
    ensures answer { numbers.new ≡ Answer·numbers (answer_of plan.now engine allowance (length book.old)) }
    ensures book { book.new ≡ book_left plan.now engine allowance book.old }
    ensures back { ReadsBack plan.now engine allowance book.new (answer_of plan.now engine allowance (length book.old)) }
    ensures units { UnitsUsed plan.now engine allowance (answer_of plan.now engine allowance (length book.old)) }
    ensures free { FreeKnown plan.now engine allowance (answer_of plan.now engine allowance (length book.old)) }
    ensures settled { NoFreeFits plan.now engine allowance (answer_of plan.now engine allowance (length book.old)) }
    ensures spots { OneSpot plan.now engine allowance (answer_of plan.now engine allowance (length book.old)) }
    ensures ids { OneById plan.now engine allowance book.new (answer_of plan.now engine allowance (length book.old)) }
    ensures counts { AddUp plan.now engine allowance (answer_of plan.now engine allowance (length book.old)) }
    ensures outcomes { CountsOfBook plan.now engine allowance book.new (answer_of plan.now engine allowance (length book.old)) }
    ensures closed { ClosedStay plan.now engine allowance book.new (answer_of plan.now engine allowance (length book.old)) }
    ensures waits { ExactWaits plan.now engine allowance (answer_of plan.now engine allowance (length book.old)) }
    ensures handled { Handled plan.now engine allowance (answer_of plan.now engine allowance (length book.old)) }
    ensures events { EventsEnd plan.now engine allowance (answer_of plan.now engine allowance (length book.old)) }
    ensures steps { StepsEnd plan.now engine allowance (answer_of plan.now engine allowance (length book.old)) }
    ensures shares { SharedEvenly plan.now engine (answer_of plan.now engine allowance (length book.old)) }
    ensures hot_day { HotDayOfRun plan.now (answer_of plan.now engine allowance (length book.old)) }
    ensures rating { BookByRating plan.now engine book.new (answer_of plan.now engine allowance (length book.old)) }
    ensures fleets { FleetsWithin plan.now engine allowance (answer_of plan.now engine allowance (length book.old)) }
    ensures carried { FleetsCarried plan.now book.new (answer_of plan.now engine allowance (length book.old)) }
    ensures no_fleets { AsBefore plan.now (answer_of plan.now engine allowance (length book.old)) }
    ensures no_limit { LimitIgnored plan.now engine (answer_of plan.now engine allowance (length book.old)) }
{
    *numbers = run_numbers(run(plan, engine, allowance, book));
}
