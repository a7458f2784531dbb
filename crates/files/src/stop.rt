// A run at its stop: what it has come to, and its book.
ghost use Rattle.std.specs.Prelude.{◌≡◌, ℕ};
ghost use Rattle.charger.specs.Lists.{tick};
ghost use Rattle.charger.specs.Code.Queue.{waiting};
ghost use Rattle.engine.specs.Plan.{Plan};
ghost use Rattle.engine.specs.Discrete.{run};
ghost use Rattle.engine.specs.Demand.{by_events, by_steps};
ghost use Rattle.engine.specs.Code.Simulation.{plan_of, pending, booked, model};
ghost use Rattle.engine.specs.Code.Steps.{RunDone};
ghost use Rattle.files.specs.BookSession.{book_sessions};
ghost use Rattle.files.specs.Book.{book_bytes, written, ReadBack};
ghost use Rattle.files.specs.Totals.{counted};
ghost use Rattle.files.specs.Code.Running.{Stopped};
ghost use Rattle.files.specs.Code.Writing.{Writable};

use crate::book::write_book;
use crate::totals::count_up;
use engine::discrete::State;
use engine::site::{Simulation, Site};
use engine::timestep::StepRun;
use plan::answer::Totals;

// Writes the book of a run at its stop, and gives its totals.
pub fn write_run(
    book: &mut [u8],
    plan: &[u8],
    site: &Site,
    simulation: &Simulation,
    engine: u8,
    used: u64,
    ended: bool,
) -> Totals
    requires { Writable plan.now site.now (booked simulation.now.sessions) book.old }
    ensures counts { result ≡ counted used ended (pending simulation.now.events) (waiting simulation.now.queue) (booked simulation.now.sessions) }
    ensures book { book.new ≡ written (book_bytes engine (tick ended) used (book_sessions plan.now (booked simulation.now.sessions))) book.old }
    ensures back { ReadBack engine (tick ended) used (book_sessions plan.now (booked simulation.now.sessions)) book.new }
{
    let sessions = simulation.sessions.as_slice();
    write_book(book, plan, site, sessions, engine, u8::from(ended), used);
    count_up(simulation, used, ended)
}

// The same of a run by events, whatever plan it ran.
pub fn stop_events(book: &mut [u8], plan: &[u8], site: &Site, state: &State) -> Totals
    requires { Writable plan.now site.now (booked state.now.simulation.sessions) book.old }
    ensures { (p : Plan) (n : ℕ) → model state.now ≡ run p n → Stopped plan.now 0 (by_events p n) book.old result book.new }
{
    let simulation = &state.simulation;
    let used = simulation.events.handled() as u64;
    let ended = simulation.events.is_empty();
    write_run(book, plan, site, simulation, 0, used, ended)
}

// The same of a run by steps, whatever site it ran.
pub fn stop_steps(book: &mut [u8], plan: &[u8], site: &Site, run: &StepRun) -> Totals
    requires { Writable plan.now site.now (booked run.now.state.simulation.sessions) book.old }
    ensures { (ran : Site) (n : ℕ) → RunDone ran n run.now → Stopped plan.now 1 (by_steps (plan_of ran) n) book.old result book.new }
{
    let simulation = &run.state.simulation;
    write_run(book, plan, site, simulation, 1, run.time, run.ended)
}
