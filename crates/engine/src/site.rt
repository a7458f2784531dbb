// The site (evse/site.rs).
ghost use Rattle.std.specs.Prelude.{◌≡◌, ℕ, ◌+◌, ◌<◌, ◌≤◌, [], length, nat_eq};
ghost use Rattle.charger.specs.First.{first};
ghost use Rattle.charger.specs.Lists.{All};
ghost use Rattle.charger.specs.Code.Queue.{waiting};
ghost use Rattle.charger.specs.Code.Vehicles.{listed};
ghost use Rattle.engine.specs.Plan.{charger_at, row_at, rated, output};
ghost use Rattle.engine.specs.SiteState.{balks, turned, withdrawn, with_written};
ghost use Rattle.engine.specs.Code.Simulation.{booked, battery_at, connectors_of, plan_of, Takes, FirstBelow, InTime, Starts, Changed};

use crate::events::{EventQueue, generate_arrival_events};
use crate::session::{Outcome, Session, uncharged};
use charger::charge_profile_list::Profiles;
use charger::charger::{Charger, no_charger, rated_power};
use charger::vehicle::{Vehicle, fits};
use charger::vehicle_list::VehicleList;
use charger::waiting_queue::WaitingQueue;
use curve::charge_profile::{ChargingOutput, integrate_over};
use curve::points::{ORIGIN, Point};
use curve::units::{Kw, Kwh};
use fixed_vec::FixedVec;
use power::power::Limit;

// What the engines read of a plan: its vehicles, its chargers, the connectors of each in a row, and by profile the battery and the curve.
// These stand by the profile's place: a struct of battery and curve would be taken apart by all but `output`. The rows are the array that
// document 01 names: as many of its first ones count as there are chargers. What the engines ask of the vehicles'
// times is asked by clause: a site is read, and its rated powers and durations found, without it.
#[derive(Clone, Copy)]
pub struct Site {
    pub vehicles: VehicleList,
    pub chargers: FixedVec<Charger, 32>,
    pub rows: [[bool; 5]; 32],
    pub batteries: [Kwh; 16],
    pub curves: [Point; 512],
    pub lens: [u8; 16],
    pub limit: Limit,
}

impl Site {
    // A site with nothing, for a plan to be read into.
    pub fn empty() -> Self
        ensures vehicles { listed result.vehicles ≡ [] }
        ensures chargers { result.chargers.items ≡ [] }
    {
        Site {
            vehicles: VehicleList {
                vehicles: FixedVec::new(),
                queue_places: [0; 64],
            },
            chargers: FixedVec::new(),
            rows: [[false; 5]; 32],
            batteries: [Kwh(0.0); 16],
            curves: [ORIGIN; 512],
            lens: [0; 16],
            limit: Limit::Unlimited,
        }
    }

    // An element, or what stands for none, three times: what stands for none differs, and the rules name each.
    // A charger's row; past the last there is no connector.
    pub fn row(&self, c: usize) -> [bool; 5]
        ensures { result ≡ row_at (connectors_of self.now) c }
    {
        if c < self.chargers.len() {
            return self.rows[c];
        }
        [false; 5]
    }

    // A charger; past the last, one with no power.
    #[tactic(auto, unfolding(crate::specs::Plan::charger_at))]
    pub fn charger(&self, c: usize) -> Charger
        ensures { result ≡ charger_at self.now.chargers.items c }
    {
        self.chargers.get(c).copied().unwrap_or(no_charger())
    }

    // A profile's battery; past the last, none.
    pub fn battery(&self, profile: usize) -> Kwh
        ensures { result ≡ battery_at self.now.batteries profile }
    {
        self.batteries.get(profile).copied().unwrap_or(Kwh(0.0))
    }

    // The curves of its profiles.
    pub fn profiles(&self) -> Profiles<'_>
        ensures points { result.points.now ≡ self.now.curves }
        ensures lens { result.lens.now ≡ self.now.lens }
    {
        Profiles {
            points: &self.curves,
            lens: &self.lens,
        }
    }

    // The rated power of a vehicle at a charger.
    #[tactic(auto, unfolding(crate::specs::Plan::rated))]
    pub fn rated(&self, v: usize, c: usize) -> Kw
        ensures { result ≡ rated (plan_of self.now) v c }
    {
        rated_power(self.charger(c), self.row(c), self.vehicles.get_vehicle(v))
    }

    // What charging the vehicle at the charger takes.
    #[tactic(auto, unfolding(crate::specs::Plan::output))]
    pub fn output(&self, v: usize, c: usize) -> ChargingOutput
        ensures { result ≡ output (plan_of self.now) v c }
    {
        let vehicle = self.vehicles.get_vehicle(v);
        integrate_over(
            self.profiles().curve(vehicle.profile),
            self.battery(vehicle.profile),
            vehicle.start,
            vehicle.target,
            self.rated(v, c),
        )
    }

    // The first free charger that fits; `free` answers which ones are free.
    pub fn free_charger<F: Fn(usize) -> bool>(&self, free: F, vehicle: Vehicle) -> Option<usize>
        requires { (c : ℕ) → c < length self.now.chargers.items → F.pre free c }
        ensures { FirstBelow (Takes (F.post free) (connectors_of self.now) vehicle) (length self.now.chargers.items) result }
    {
        for c in 0..self.chargers.len() {
            if free(c) && fits(self.row(c), vehicle) {
                return Some(c);
            }
        }
        None
    }
}

// The state of a site but for what stands at its chargers.
#[derive(Clone, Copy)]
pub struct Simulation {
    pub events: EventQueue,
    pub queue: WaitingQueue,
    pub sessions: FixedVec<Session, 64>,
}

impl Simulation {
    // The start of a run: everybody is yet to arrive.
    pub fn new(vehicles: &VehicleList) -> Self
        requires { All InTime (listed vehicles.now) }
        ensures { Starts (listed vehicles.now) result }
    {
        Simulation {
            events: generate_arrival_events(vehicles),
            queue: WaitingQueue::new(),
            sessions: FixedVec::new(),
        }
    }

    // The vehicle balks if the queue has reached its own limit, or if its fleet has filled its places.
    #[tactic(auto, unfolding(crate::specs::SiteState::balks))]
    fn balks(&self, v: usize, vehicles: &VehicleList) -> bool
        ensures { result ≡ balks (listed vehicles.now) vehicles.now.queue_places v (waiting self.now.queue) }
    {
        let vehicle = vehicles.get_vehicle(v);
        vehicle.limit <= self.queue.ids.len() || self.queue.fleet_full(vehicles, vehicle.fleet)
    }

    // A vehicle that found no charger balks or waits.
    pub fn turn_away(&mut self, v: usize, vehicles: &VehicleList)
        requires queue { length (waiting self.old.queue) < 64 }
        requires room { length (with_written (turned v (waiting self.old.queue) (balks (listed vehicles.now) vehicles.now.queue_places v (waiting self.old.queue))).written (booked self.old.sessions)) ≤ 64 }
        ensures { Changed (turned v (waiting self.old.queue) (balks (listed vehicles.now) vehicles.now.queue_places v (waiting self.old.queue))) self.old self.new }
    {
        if self.balks(v, vehicles) {
            self.sessions.push(uncharged(v, Outcome::Balked, 0));
        } else {
            self.queue.push_back(v);
        }
    }

    // A renege finds its vehicle queued, and it leaves, or finds nobody.
    pub fn renege(&mut self, time: u64, v: usize, vehicles: &VehicleList)
        requires { length (with_written (withdrawn (listed vehicles.now) time (waiting self.old.queue) (first (nat_eq v) (waiting self.old.queue))).written (booked self.old.sessions)) ≤ 64 }
        ensures { Changed (withdrawn (listed vehicles.now) time (waiting self.old.queue) (first (nat_eq v) (waiting self.old.queue))) self.old self.new }
    {
        if let Some(w) = self.queue.remove(v) {
            let wait = time.saturating_sub(vehicles.get_vehicle(w).arrival);
            self.sessions.push(uncharged(w, Outcome::Reneged, wait));
        }
    }
}
