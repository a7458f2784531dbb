// The vehicles that wait for a charger that fits them (waiting_queue.rs).
ghost use Rattle.std.specs.Prelude.{◌≡◌, [], ◌∷◌, ◌++◌, ◌≤◌, ◌<◌, ◌==◌, length, position};
ghost use Rattle.charger.specs.First.{first};
ghost use Rattle.charger.specs.Code.Vehicles.{listed};
ghost use Rattle.charger.specs.Vehicle.{fits_at};
ghost use Rattle.charger.specs.Fleet.{queued_of, fleet_full};
ghost use Rattle.charger.specs.Code.Queue.{waiting, Taken};

use crate::vehicle::fits;
use crate::vehicle_list::VehicleList;
use fixed_vec::FixedVec;

// By their places in the plan, first in, first out.
#[derive(Clone, Copy)]
pub struct WaitingQueue {
    pub ids: FixedVec<usize, 64>,
}

impl WaitingQueue {
    pub fn new() -> Self
        ensures { waiting result ≡ [] }
    {
        WaitingQueue {
            ids: FixedVec::new(),
        }
    }

    pub fn push_back(&mut self, id: usize)
        requires { length (waiting self.old) < 64 }
        ensures { waiting self.new ≡ waiting self.old ++ (id ∷ []) }
    {
        self.ids.push(id);
    }

    // Where `id` stands.
    fn position(&self, id: usize) -> Option<usize>
        ensures { result ≡ position (λ v. id == v) (waiting self.now) }
    {
        self.ids.iter().position(|v| id == *v)
    }

    // Where the first stands that fits the charger.
    fn position_compatible(&self, vehicles: &VehicleList, row: [bool; 5]) -> Option<usize>
        ensures { result ≡ position (fits_at row (listed vehicles.now)) (waiting self.now) }
    {
        self.ids
            .iter()
            .position(|v| fits(row, vehicles.get_vehicle(*v)))
    }

    // How many of the fleet are queued.
    fn queued_of(&self, vehicles: &VehicleList, fleet: u16) -> usize
        requires { 1 ≤ fleet }
        ensures { result ≡ queued_of (listed vehicles.now) fleet (waiting self.now) }
    {
        self.ids
            .iter()
            .filter(|v| vehicles.fleet_of(**v) == fleet)
            .count()
    }

    // The fleet has filled its places. Fleet 0 is none (see `Vehicle`), and the rules give it no such limit.
    pub fn fleet_full(&self, vehicles: &VehicleList, fleet: u16) -> bool
        ensures { result ≡ fleet_full (listed vehicles.now) vehicles.now.queue_places fleet (waiting self.now) }
    {
        if fleet == 0 {
            return false;
        }
        let places = vehicles.places_of(fleet) as usize;
        places <= self.queued_of(vehicles, fleet)
    }

    // Takes a vehicle out, wherever it stands.
    #[tactic(auto, using(crate::proofs::waiting_queue::Taken::missed, crate::proofs::waiting_queue::Taken::met))]
    pub fn remove(&mut self, id: usize) -> Option<usize>
        ensures { Taken (first (λ v. id == v) (waiting self.old)) (waiting self.old) (waiting self.new) result }
    {
        let at = self.position(id)?;
        Some(self.ids.remove(at))
    }

    // Takes the first vehicle out that fits the charger.
    #[tactic(auto, using(crate::proofs::waiting_queue::Taken::missed, crate::proofs::waiting_queue::Taken::met))]
    pub fn pop_compatible(&mut self, vehicles: &VehicleList, row: [bool; 5]) -> Option<usize>
        ensures { Taken (first (fits_at row (listed vehicles.now)) (waiting self.old)) (waiting self.old) (waiting self.new) result }
    {
        let at = self.position_compatible(vehicles, row)?;
        Some(self.ids.remove(at))
    }
}
