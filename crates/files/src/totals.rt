// The counts of a run at its stop.
ghost use Rattle.std.specs.Prelude.{◌≡◌};
ghost use Rattle.charger.specs.Code.Queue.{waiting};
ghost use Rattle.engine.specs.Code.Simulation.{pending, booked};
ghost use Rattle.engine.specs.Demand.{yet_to_arrive, sessions_with, outcome_number};
ghost use Rattle.files.specs.Totals.{counted};

use engine::events::{EventQueue, EventType};
use engine::session::{Outcome, Session};
use engine::site::Simulation;
use plan::answer::Totals;

// How many vehicles are yet to arrive.
fn arrivals(events: &EventQueue) -> usize
    ensures { result ≡ yet_to_arrive (pending events.now) }
{
    events
        .as_slice()
        .iter()
        .filter(|e| e.kind == EventType::Arrival)
        .count()
}

// How many sessions have the outcome.
fn of_outcome(sessions: &[Session], outcome: Outcome) -> usize
    ensures { result ≡ sessions_with (outcome_number outcome) sessions.now }
{
    sessions.iter().filter(|x| x.outcome == outcome).count()
}

// The totals of a run that used so many units.
pub fn count_up(simulation: &Simulation, used: u64, ended: bool) -> Totals
    ensures { result ≡ counted used ended (pending simulation.now.events) (waiting simulation.now.queue) (booked simulation.now.sessions) }
{
    let sessions = simulation.sessions.as_slice();
    Totals {
        used,
        ended,
        yet_to_arrive: arrivals(&simulation.events) as u64,
        queued: simulation.queue.ids.len() as u64,
        still_open: of_outcome(sessions, Outcome::Open) as u64,
        charged: of_outcome(sessions, Outcome::Charged) as u64,
        reneged: of_outcome(sessions, Outcome::Reneged) as u64,
        balked: of_outcome(sessions, Outcome::Balked) as u64,
    }
}
