// What the engines read of a vehicle.
ghost use Rattle.std.specs.Prelude.{◌≡◌};
ghost use Rattle.charger.specs.Vehicle.{no_vehicle, connector_of, compatible};

use crate::connector::common_connector;
use curve::units::Seconds;

// `profile` is its charge profile's place in the plan. Its connectors, in its order of preference, are the first `count` codes. As the struct
// of both, `Connectors`, they would take eight bytes more: the fleet lies in the word of the codes, and a vehicle is copied at each event.
// Fleet 0 is none, as a plan writes it and the rules name it; an `Option` would take a word more, and say no more than they do.
#[derive(Clone, Copy, Default)]
pub struct Vehicle {
    pub profile: usize,
    pub codes: [u8; 5],
    pub fleet: u16,
    pub count: usize,
    pub start: f64,
    pub target: f64,
    pub idle: Seconds,
    pub arrival: u64,
    pub wait: u64,
    pub limit: usize,
}

// One that fits no charger. What a derived `Default` promises, field by field, does not prove the equation.
pub fn no_vehicle() -> Vehicle
    ensures { result ≡ no_vehicle }
{
    Vehicle {
        profile: 0,
        codes: [0; 5],
        fleet: 0,
        count: 0,
        start: 0.0,
        target: 0.0,
        idle: Seconds(0.0),
        arrival: 0,
        wait: 0,
        limit: 0,
    }
}

// The connector that the pair has in common: the first of the vehicle's that the charger has. Row and vehicle are the two
// sides of a pair, which are looked up apart.
pub fn connector_of(row: [bool; 5], vehicle: Vehicle) -> Option<u8>
    ensures { result ≡ connector_of row vehicle }
{
    let codes = vehicle.codes;
    common_connector(row, codes, vehicle.count)
}

// The pair has a connector in common.
pub fn fits(row: [bool; 5], vehicle: Vehicle) -> bool
    ensures { result ≡ compatible row vehicle }
{
    connector_of(row, vehicle).is_some()
}
