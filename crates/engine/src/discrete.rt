// The event engine (simulation/discrete.rs).
ghost use Rattle.std.specs.Prelude.{◌≡◌, ℕ, ◌+◌, ◌^◌, ◌<◌, ◌≤◌, length, slice_set};
ghost use Rattle.curve.specs.F64.{ceiling};
ghost use Rattle.charger.specs.Lists.{tick, All};
ghost use Rattle.charger.specs.Code.Vehicles.{listed};
ghost use Rattle.engine.specs.Events.{Ordered};
ghost use Rattle.engine.specs.SiteState.{start_charging, handle, release};
ghost use Rattle.engine.specs.Discrete.{charged_session, events, start, run};
ghost use Rattle.engine.specs.Demand.{is_arrival};
ghost use Rattle.engine.specs.Code.Simulation.{pending, plan_of, model, InTime, RunSoFar, Becomes, Admits};

use crate::events::{Event, EventType};
use crate::session::{Outcome, Session};
use crate::site::{Simulation, Site};
use curve::float::ceil;
use curve::units::Seconds;
use fixed_vec::FixedVec;

// Who stands at each charger, by the vehicle's place in the plan, beside the rest of the site's state. What its functions ask of a time, a
// place and the room left is asked by clause: in the middle of an event it holds with one more or less (`Admits`).
#[derive(Clone, Copy)]
pub struct State {
    pub simulation: Simulation,
    pub places: FixedVec<Option<usize>, 32>,
}

// The whole seconds from plug-in to unplug: charge duration rounded up, and idle rounded up.
fn stay(duration: Seconds, idle: Seconds) -> u64
    ensures { (result ≡ ceiling duration.0 + ceiling idle.0) × (result ≤ 2000000) }
{
    let charging = duration.0;
    let parked = idle.0;
    ceil(Seconds(charging)) + ceil(Seconds(parked))
}

// The session of the vehicle `v` that takes the charger `c`, by what its charge takes.
#[tactic(auto, unfolding(crate::specs::Discrete::charged_session, crate::specs::Plan::stay))]
fn charge(site: &Site, time: u64, v: usize, c: usize) -> Session
    requires { time < 2 ^ 63 }
    ensures { result ≡ charged_session (plan_of site.now) time v c }
{
    let car = site.vehicles.get_vehicle(v);
    let output = site.output(v, c);
    Session {
        vehicle: v,
        outcome: Outcome::Charged,
        charger: c,
        plugin: time,
        unplug: time + stay(output.duration, car.idle),
        wait: time.saturating_sub(car.arrival),
        duration: output.duration,
        idle: car.idle,
        peak: output.peak,
        energy: output.energy,
    }
}

// `new`, `stand` and `arrive` are here, and in `plug_in` and `timestep` over another state: a trait for both would carry what each engine promises of its
// change (`Becomes`, `Changes`) and what it asks for, and say no more than their few lines do.
impl State {
    // The start of a run: everybody is yet to arrive.
    pub fn new(site: &Site) -> Self
        requires { All InTime (listed site.now.vehicles) }
        ensures { model result ≡ start (plan_of site.now) }
    {
        let mut places = FixedVec::<Option<usize>, 32>::new();
        for _c in 0..site.chargers.len() {
            places.push(None);
        }
        State {
            simulation: Simulation::new(&site.vehicles),
            places,
        }
    }

    // A charger that is not there has no place.
    fn stand(&mut self, c: usize, who: Option<usize>)
        ensures places { self.new.places.items ≡ slice_set self.old.places.items c who }
        ensures rest { self.new.simulation ≡ self.old.simulation }
    {
        if c < self.places.len() {
            self.places[c] = who;
        }
    }

    // The vehicle takes the charger.
    #[tactic(auto, unfolding(crate::specs::SiteState::start_charging))]
    fn plug_in(&mut self, site: &Site, time: u64, v: usize, c: usize)
        requires times { time < 2 ^ 63 }
        requires room { Admits 1 self.old.simulation }
        ensures { Becomes (start_charging (plan_of site.now) (events (plan_of site.now)) time v c) self.old self.new }
    {
        let x = charge(site, time, v, c);
        self.simulation.events.push(Event {
            time: x.unplug,
            kind: EventType::Unplug,
            vehicle: v,
            charger: c,
        });
        self.simulation.sessions.push(x);
        self.stand(c, Some(v));
    }

    // An arrival takes the first free charger that fits, else it balks or waits.
    fn arrive(&mut self, site: &Site, time: u64, v: usize)
        requires times { time < 2 ^ 63 }
        requires room { Admits 1 self.old.simulation }
        requires places { length self.old.places.items ≡ length site.now.chargers.items }
        ensures { (c : ℕ) → Becomes (handle (plan_of site.now) (events (plan_of site.now)) EventType.Arrival time v c) self.old self.new }
    {
        match site.free_charger(|c| self.places[c].is_none(), site.vehicles.get_vehicle(v)) {
            Some(c) => self.plug_in(site, time, v, c),
            None => self.simulation.turn_away(v, &site.vehicles),
        }
    }

    // An unplug frees the charger, and the first queued vehicle that fits it takes it at once.
    fn unplug(&mut self, site: &Site, time: u64, c: usize)
        requires times { time < 2 ^ 63 }
        requires room { Admits 0 self.old.simulation }
        ensures { Becomes (release (plan_of site.now) (events (plan_of site.now)) time c) self.old self.new }
    {
        self.stand(c, None);
        if let Some(v) = self
            .simulation
            .queue
            .pop_compatible(&site.vehicles, site.row(c))
        {
            self.plug_in(site, time, v, c);
        }
    }

    // What an event does, which was popped.
    fn handle(&mut self, site: &Site, e: Event)
        requires times { e.time < 2 ^ 63 }
        requires room { Admits (tick (is_arrival e.kind)) self.old.simulation }
        requires places { length self.old.places.items ≡ length site.now.chargers.items }
        ensures { Becomes (handle (plan_of site.now) (events (plan_of site.now)) e.kind e.time e.vehicle e.charger) self.old self.new }
    {
        match e.kind {
            EventType::Arrival => self.arrive(site, e.time, e.vehicle),
            EventType::Renege => self.simulation.renege(e.time, e.vehicle, &site.vehicles),
            EventType::Unplug => self.unplug(site, e.time, e.charger),
        }
    }
}

// The run goes on from a state that it has reached, by up to `further` events.
pub fn go_on(site: &Site, state: &mut State, further: u64)
    requires times { All InTime (listed site.now.vehicles) }
    requires reached { RunSoFar (plan_of site.now) state.old }
    ensures same { model state.new ≡ run (plan_of site.now) (state.old.simulation.events.handled + further) }
    ensures order { Ordered (pending state.new.simulation.events) }
{
    for i in 0..further {
        match state.simulation.events.pop() {
            Some(e) => state.handle(site, e),
            None => return,
        }
    }
}

// The run of up to `allowance` events.
pub fn run(site: &Site, allowance: u64) -> State
    requires times { All InTime (listed site.now.vehicles) }
    ensures same { model result ≡ run (plan_of site.now) allowance }
    ensures order { Ordered (pending result.simulation.events) }
{
    let mut state = State::new(site);
    go_on(site, &mut state, allowance);
    state
}
