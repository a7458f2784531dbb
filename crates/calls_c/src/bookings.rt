// Request 7's call: a car booked late.
ghost use Rattle.std.specs.Prelude.{◌≡◌, length};
ghost use Rattle.plan.specs.Answer.{check_numbers};
ghost use Rattle.late_booking.specs.Call.{late_answer, new_dump_left};
ghost use Rattle.late_booking.specs.Stands.{RunStands, InOrder, OneMoreToArrive, WholeDump, HeaderStands, SessionsStand, EventsJoined, PlannedInFull};

use late_booking::late::book_late;
use plan::answer::check_numbers;

// Books a car into a plan whose run by events was dumped; its numbers go to `numbers`, the new dump to `new`.
#[unsafe(no_mangle)]
pub extern "C" fn site_book_late(
    plan: &[u8],
    dump: &[u8],
    car: &[u8],
    new: &mut [u8],
    numbers: &mut [u64; 11],
)
    ensures answer { numbers.new ≡ check_numbers (late_answer plan.now dump.now car.now (length new.old)) }
    ensures dump { new.new ≡ new_dump_left plan.now dump.now car.now new.old }
    ensures stands { RunStands plan.now dump.now car.now (late_answer plan.now dump.now car.now (length new.old)) }
    ensures order { InOrder plan.now dump.now car.now (late_answer plan.now dump.now car.now (length new.old)) }
    ensures counts { OneMoreToArrive plan.now dump.now car.now (late_answer plan.now dump.now car.now (length new.old)) }
    ensures whole { WholeDump plan.now dump.now car.now new.new (late_answer plan.now dump.now car.now (length new.old)) }
    ensures header { HeaderStands plan.now dump.now car.now new.new (late_answer plan.now dump.now car.now (length new.old)) }
    ensures sessions { SessionsStand plan.now dump.now car.now new.new (late_answer plan.now dump.now car.now (length new.old)) }
    ensures events { EventsJoined plan.now dump.now car.now new.new (late_answer plan.now dump.now car.now (length new.old)) }
    ensures full { PlannedInFull plan.now dump.now car.now new.new (late_answer plan.now dump.now car.now (length new.old)) }
{
    *numbers = check_numbers(book_late(plan, dump, car, new));
}
