// How often a charger's events came, by the sessions that a run has so far.
ghost use Rattle.std.specs.Prelude.{◌≡◌};
ghost use Rattle.engine.specs.Demand.{plugged_at};
ghost use Rattle.panel.specs.Events.{charged_at as Events·charged_at, plug_ins, releases};

use engine::session::{Outcome, Session};

// The session is one of a car that was plugged in at the charger.
fn plugged_at(x: &Session, c: usize) -> bool
    ensures { result ≡ plugged_at c x.now }
{
    matches!(x.outcome, Outcome::Open | Outcome::Charged) && c == x.charger
}

// It is closed too: the charger was freed.
fn charged_at(x: &Session, c: usize) -> bool
    ensures { result ≡ Events·charged_at c x.now }
{
    matches!(x.outcome, Outcome::Charged) && c == x.charger
}

// How often a car was plugged in at the charger.
pub fn plug_ins(sessions: &[Session], c: usize) -> usize
    ensures { result ≡ plug_ins c sessions.now }
{
    sessions.iter().filter(|x| plugged_at(x, c)).count()
}

// How often the charger was freed.
pub fn releases(sessions: &[Session], c: usize) -> usize
    ensures { result ≡ releases c sessions.now }
{
    sessions.iter().filter(|x| charged_at(x, c)).count()
}
