// Charging sessions (session.rs).
ghost use Rattle.std.specs.Prelude.{◌≡◌};
ghost use Rattle.engine.specs.SiteState.{uncharged};

use curve::units::{Kw, Kwh, Seconds};

#[derive(Clone, Copy, PartialEq, Default)]
pub enum Outcome {
    #[default]
    Open,
    Charged,
    Reneged,
    Balked,
}

// Vehicle and charger by their places in the plan; what is missing by its outcome is 0.
#[derive(Clone, Copy, Default)]
pub struct Session {
    pub vehicle: usize,
    pub outcome: Outcome,
    pub charger: usize,
    pub plugin: u64,
    pub unplug: u64,
    pub wait: u64,
    pub duration: Seconds,
    pub idle: Seconds,
    pub peak: Kw,
    pub energy: Kwh,
}

// The session of a vehicle that did not charge.
pub fn uncharged(vehicle: usize, outcome: Outcome, wait: u64) -> Session
    ensures { result ≡ uncharged vehicle outcome wait }
{
    Session {
        vehicle,
        outcome,
        charger: 0,
        plugin: 0,
        unplug: 0,
        wait,
        duration: Seconds(0.0),
        idle: Seconds(0.0),
        peak: Kw(0.0),
        energy: Kwh(0.0),
    }
}
