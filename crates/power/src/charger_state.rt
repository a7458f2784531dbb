// A charger's state (charger.rs), and what a round does to it (timestep.rs).
ghost use Rattle.std.specs.Prelude.{◌≡◌};
ghost use Rattle.power.specs.ChargerState as Spec;

use curve::float::{max, min};
use curve::units::{Kw, Kwh, Seconds};

// Finished: the car goes in this round; the charger is freed at the round's end.
#[derive(Clone, Copy, PartialEq, Eq, Debug)]
pub enum Status {
    Free,
    Charging,
    Idle,
    Finished,
}

// `vehicle` and `profile` are places in the plan, `session` is one in the book. `vehicle` stands last: beside the other three bytes
// it would make a word of them, and the lone car's rounds slower.
#[derive(Clone, Copy)]
pub struct ChargerState {
    pub status: Status,
    pub profile: u8,
    pub session: u8,
    pub soc: f64,
    pub target: f64,
    pub battery: Kwh,
    pub rated: Kw,
    pub requested: Kw,
    pub cap: Kw,
    pub idle: Seconds,
    pub energy: Kwh,
    pub peak: Kw,
    pub vehicle: u8,
}

// A charger with no car.
pub const EMPTY: ChargerState = ChargerState {
    status: Status::Free,
    profile: 0,
    session: 0,
    soc: 0.0,
    target: 0.0,
    battery: Kwh(0.0),
    rated: Kw(0.0),
    requested: Kw(0.0),
    cap: Kw(0.0),
    idle: Seconds(0.0),
    energy: Kwh(0.0),
    peak: Kw(0.0),
    vehicle: 0,
};

// By hand, since the engine goes by its promise, the rules' state with no car. A derived one promises field by field, and does not prove it.
impl Default for ChargerState {
    ghost use Rattle.power.specs.ChargerState as Spec;

    ghost is_default = { λ s. s ≡ Spec.empty };

    fn default() -> Self {
        EMPTY
    }
}

// One second, in hours.
const TIMESTEP_HRS: f64 = 1.0 / 3600.0;

// The rules have a word for each of these tests.
impl Status {
    pub fn is_free(self) -> bool
        ensures { result ≡ Spec.is_free self }
    {
        matches!(self, Status::Free)
    }

    pub fn is_finished(self) -> bool
        ensures { result ≡ Spec.is_finished self }
    {
        matches!(self, Status::Finished)
    }

    pub fn is_charging(self) -> bool
        ensures { result ≡ Spec.is_charging self }
    {
        matches!(self, Status::Charging)
    }

    // Idle once the SOC has reached the target.
    fn charging_until(target: f64, soc: f64) -> Self
        ensures { result ≡ Spec.charging_until target soc }
    {
        if target <= soc {
            Status::Idle
        } else {
            Status::Charging
        }
    }

    // Finished once no idle time is left.
    fn idle_until(left: f64) -> Self
        ensures { result ≡ Spec.idle_until left }
    {
        if left <= 0.0 {
            Status::Finished
        } else {
            Status::Idle
        }
    }
}

impl ChargerState {
    // Leaves the charger with no car.
    pub fn clear(&mut self)
        ensures { self.new ≡ Spec.empty }
    {
        *self = EMPTY;
    }

    // What the car draws, if the site's limit leaves it alone.
    pub fn draw(&self) -> f64
        ensures { result ≡ Spec.draw self.now }
    {
        min(self.requested.0, self.rated.0)
    }

    // By value from here on, and the thin calls (thin.rt) alter a state by them: document 01 names this form. They change fields: a new
    // struct would be stored with the bytes that lie between its fields, in every round.
    pub fn with_cap(mut self, cap: Kw) -> Self
        ensures { result ≡ Spec.with_cap cap self }
    {
        self.cap = cap;
        self
    }

    // A round of charging by a power: idle once the target is reached.
    pub fn delivered(mut self, power: f64) -> Self
        ensures { result ≡ Spec.delivered power self }
    {
        let energy = power * TIMESTEP_HRS;
        self.soc += energy / self.battery.0;
        self.status = Status::charging_until(self.target, self.soc);
        self.energy.0 += energy;
        self.peak.0 = max(self.peak.0, power);
        self
    }

    // A round of charging.
    fn after_charging(self) -> Self
        ensures { result ≡ Spec.after_charging self }
    {
        self.delivered(min(self.requested.0, self.cap.0))
    }

    // A round of standing idle: finished once no idle time is left.
    fn after_idling(mut self) -> Self
        ensures { result ≡ Spec.after_idling self }
    {
        self.idle.0 -= 1.0;
        self.status = Status::idle_until(self.idle.0);
        self
    }

    // A round's progress. The arms assign: as the value of the match, the state would cost the second pass more moves of memory.
    pub fn progress(mut self) -> Self
        ensures { result ≡ Spec.progress self }
    {
        match self.status {
            Status::Charging => self = self.after_charging(),
            Status::Idle => self = self.after_idling(),
            Status::Free | Status::Finished => {}
        }
        self
    }
}
