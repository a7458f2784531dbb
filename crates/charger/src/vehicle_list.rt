// The plan's vehicles (vehicle_list.rs).
ghost use Rattle.std.specs.Prelude.{◌≤◌, length};

use crate::vehicle::{Vehicle, no_vehicle};
use fixed_vec::FixedVec;

// The vehicles in plan order, and the queue places of fleets 1 to 64. That the vector holds no more than 64, its own contracts say only where
// it is lent.
#[derive(Clone, Copy)]
pub struct VehicleList {
    pub vehicles: FixedVec<Vehicle, 64>,
    pub queue_places: [u8; 64],
    ghost few: { length vehicles.items ≤ 64 },
}

impl VehicleList {
    ghost use Rattle.std.specs.Prelude.{◌≡◌};
    ghost use Rattle.charger.specs.Vehicle.{vehicle_at, no_vehicle};
    ghost use Rattle.charger.specs.Fleet.{places_of};
    ghost use Rattle.charger.specs.Code.Vehicles.{listed};

    // The vehicle at a place of the plan; past the last one that fits no charger.
    pub fn get_vehicle(&self, v: usize) -> Vehicle
        ensures { result ≡ vehicle_at (listed self.now) v }
    {
        match self.vehicles.get(v) {
            Some(x) => *x,
            None => no_vehicle(),
        }
    }

    // Its fleet; past the last vehicle there is none.
    pub fn fleet_of(&self, v: usize) -> u16
        ensures { result ≡ (vehicle_at (listed self.now) v).fleet }
    {
        match self.vehicles.get(v) {
            Some(x) => x.fleet,
            None => 0,
        }
    }

    // The queue places of a fleet.
    pub fn places_of(&self, fleet: u16) -> u8
        requires { 1 ≤ fleet }
        ensures { result ≡ places_of self.now.queue_places fleet }
    {
        self.queue_places
            .get((fleet - 1) as usize)
            .copied()
            .unwrap_or(0)
    }
}
