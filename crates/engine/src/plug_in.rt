// Cars come and go by steps (simulation/timestep.rs): the events due, plug-ins, closed sessions, freed chargers.
ghost use Rattle.std.specs.Prelude.{◌≡◌, ◌<◌, false, length, slice_index_or, slice_set};
ghost use Rattle.charger.specs.Lists.{tick};
ghost use Rattle.engine.specs.SiteState.{start_charging, handle, release};
ghost use Rattle.engine.specs.declared.events.EventType.TheVariants.{Arrival};
ghost use Rattle.power.specs.ChargerState.{is_free, is_finished, empty};
ghost use Rattle.engine.specs.Demand.{is_arrival, is_unplug};
ghost use Rattle.engine.specs.Code.Simulation.{pending, plan_of};
ghost use Rattle.engine.specs.Timestep.{steps, due, finalized, closed_at, closed, with_closed, release_finished};
ghost use Rattle.engine.specs.Timestep as Spec;
ghost use Rattle.engine.specs.Code.Events.{is_due};
ghost use Rattle.engine.specs.Code.Steps.{held, Running, Changes, released_if};

use crate::events::{Event, EventType};
use crate::session::{Outcome, Session};
use crate::site::{Simulation, Site};
use charger::vehicle::Vehicle;
use curve::units::{Kw, Kwh, Seconds};
use fixed_vec::FixedVec;
use power::charger_state::{ChargerState, Status};

// What stands at each charger, beside the rest of the site's state. What a run promises of it, `Running`, is asked by clause: it speaks of
// the site too, and in the middle of an event there is room for one more.
#[derive(Clone, Copy)]
pub struct State {
    pub simulation: Simulation,
    pub bank: FixedVec<ChargerState, 32>,
}

// The session of a car that plugs in.
fn started(v: usize, c: usize, time: u64, car: Vehicle) -> Session
    ensures { result ≡ Spec.open_session car time v c }
{
    Session {
        vehicle: v,
        outcome: Outcome::Open,
        charger: c,
        plugin: time,
        unplug: 0,
        wait: time.saturating_sub(car.arrival),
        duration: Seconds(0.0),
        idle: car.idle,
        peak: Kw(0.0),
        energy: Kwh(0.0),
    }
}

// The state of its charger.
fn plugged(v: usize, car: Vehicle, battery: Kwh, power: Kw, index: usize) -> ChargerState
    requires vehicle { v < 256 }
    requires profile { car.profile < 256 }
    requires session { index < 256 }
    ensures { result ≡ Spec.plugged car battery power v index }
{
    ChargerState {
        status: Status::Charging,
        vehicle: v as u8,
        profile: car.profile as u8,
        session: index as u8,
        soc: car.start,
        target: car.target,
        battery,
        rated: power,
        requested: Kw(0.0),
        cap: power,
        idle: car.idle,
        energy: Kwh(0.0),
        peak: Kw(0.0),
    }
}

// The session of a car that goes now, with what the charger counted.
#[tactic(auto, unfolding(crate::specs::Timestep::finalized))]
fn finalize(x: &mut Session, time: u64, s: &ChargerState)
    ensures { x.new ≡ finalized time s.now x.old }
{
    let stayed = std::num::nearest_u64_to_f64(time.saturating_sub(x.plugin));
    x.outcome = Outcome::Charged;
    x.unplug = time;
    x.duration = Seconds(stayed - x.idle.0);
    x.peak = s.peak;
    x.energy = s.energy;
}

// The session of one charger is closed, if the charger is finished.
fn close_at(sessions: &mut [Session], time: u64, s: &ChargerState)
    ensures { sessions.new ≡ closed_at time s.now sessions.old }
{
    if s.status.is_finished() {
        let k = usize::from(s.session);
        if k < sessions.len() {
            finalize(&mut sessions[k], time, s);
        }
    }
}

// The sessions of all finished chargers are closed.
fn close_finished(sessions: &mut [Session], time: u64, bank: &[ChargerState])
    ensures { sessions.new ≡ closed time bank.now sessions.old }
{
    for s in bank {
        close_at(sessions, time, s);
    }
}

// A place, `c < length self.old.bank.items`, is asked by clause: it is one of a state that changes, which a type of places would lend.
// `stand` and `arrive` are here and in `discrete`, and `new` is in `timestep`: see `discrete`.
impl State {
    fn stand(&mut self, c: usize, s: ChargerState)
        requires { c < length self.old.bank.items }
        ensures bank { self.new.bank.items ≡ slice_set self.old.bank.items c s }
        ensures rest { self.new.simulation ≡ self.old.simulation }
    {
        self.bank[c] = s;
    }

    // Nobody stands at the charger any more.
    fn vacate(&mut self, c: usize)
        requires { c < length self.old.bank.items }
        ensures bank { self.new.bank.items ≡ slice_set self.old.bank.items c empty }
        ensures rest { self.new.simulation ≡ self.old.simulation }
    {
        self.bank[c].clear();
    }

    // The vehicle takes the charger.
    fn start_charging(&mut self, site: &Site, v: usize, c: usize, time: u64)
        requires fit { Running site.now 1 self.old }
        requires there { c < length self.old.bank.items }
        requires who { v < 64 }
        ensures { Changes site.now (λ p. start_charging p (steps p) time v c) self.old self.new }
    {
        let car = site.vehicles.get_vehicle(v);
        let index = self.simulation.sessions.len();
        let state = plugged(v, car, site.battery(car.profile), site.rated(v, c), index);
        self.stand(c, state);
        self.simulation.sessions.push(started(v, c, time, car));
    }

    fn is_free(&self, c: usize) -> bool
        requires { c < length self.now.bank.items }
        ensures { result ≡ is_free (slice_index_or self.now.bank.items c empty).status }
    {
        self.bank[c].status.is_free()
    }

    // An arrival takes the first free charger that fits, else it balks or waits.
    fn arrive(&mut self, site: &Site, v: usize, time: u64)
        requires fit { Running site.now 1 self.old }
        requires who { v < 64 }
        ensures { Changes site.now (λ p. handle p (steps p) Arrival time v 0) self.old self.new }
    {
        match site.free_charger(|c| self.is_free(c), site.vehicles.get_vehicle(v)) {
            Some(c) => self.start_charging(site, v, c, time),
            None => self.simulation.turn_away(v, &site.vehicles),
        }
    }

    // The event, which was popped. An unplug is no event of this engine.
    fn handle_event(&mut self, site: &Site, event: Event)
        requires fit { Running site.now (tick (is_arrival event.kind)) self.old }
        requires kind { is_unplug event.kind ≡ false }
        requires who { event.vehicle < 64 }
        ensures { Changes site.now (λ p. handle p (steps p) event.kind event.time event.vehicle event.charger) self.old self.new }
    {
        match event.kind {
            EventType::Arrival => self.arrive(site, event.vehicle, event.time),
            EventType::Renege => {
                self.simulation
                    .renege(event.time, event.vehicle, &site.vehicles)
            }
            EventType::Unplug => {}
        }
    }

    // Every event due is popped and handled.
    pub fn handle_due(&mut self, site: &Site, time: u64)
        requires { Running site.now 0 self.old }
        ensures handled { held self.new ≡ due (plan_of site.now) time (pending self.old.simulation.events) (held self.old) }
        ensures fit { Running site.now 0 self.new }
        ensures none { is_due time (pending self.new.simulation.events) ≡ false }
    {
        while let Some(event) = self.simulation.events.pop_due(time) {
            self.handle_event(site, event);
        }
    }

    // The charger is freed, and takes the first fitting vehicle of the queue at once.
    fn release(&mut self, site: &Site, c: usize, time: u64)
        requires fit { Running site.now 0 self.old }
        requires there { c < length self.old.bank.items }
        ensures { Changes site.now (λ p. release p (steps p) time c) self.old self.new }
    {
        match self
            .simulation
            .queue
            .pop_compatible(&site.vehicles, site.row(c))
        {
            Some(v) => self.start_charging(site, v, c, time),
            None => self.vacate(c),
        }
    }

    // The same, if the charger is finished.
    fn release_if_finished(&mut self, site: &Site, c: usize, time: u64)
        requires fit { Running site.now 0 self.old }
        requires there { c < length self.old.bank.items }
        ensures { Changes site.now (released_if (is_finished (slice_index_or self.old.bank.items c empty).status) time c) self.old self.new }
    {
        if self.bank[c].status.is_finished() {
            self.release(site, c, time);
        }
    }

    // Every finished charger is freed.
    fn release_finished(&mut self, site: &Site, time: u64)
        requires { Running site.now 0 self.old }
        ensures { Changes site.now (λ p. release_finished p time) self.old self.new }
    {
        for c in 0..self.bank.len() {
            self.release_if_finished(site, c, time);
        }
    }

    // The end of a round in which a charger is finished.
    pub fn free_finished(&mut self, site: &Site, time: u64)
        requires { Running site.now 0 self.old }
        ensures { Changes site.now (λ p f. release_finished p time (with_closed p time f)) self.old self.new }
    {
        close_finished(
            self.simulation.sessions.as_mut_slice(),
            time,
            self.bank.as_slice(),
        );
        self.release_finished(site, time);
    }
}
