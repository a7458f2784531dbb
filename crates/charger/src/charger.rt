// A charger's leads and its power (charger.rs).
ghost use Rattle.std.specs.Prelude.{◌≡◌};
ghost use Rattle.charger.specs.Charger.{no_charger, cap_of, current_of, resolve, actual_max_power, rated_power};
ghost use Rattle.charger.specs.Leads.{CapsLower};

use crate::vehicle::{Vehicle, connector_of};
use curve::float::min;
use curve::units::{Amperes, Kw, Volts};

// `caps` has for each connector code, from 1, the most that its lead carries. 0 A means no cap, as zero bytes in a plan do and as the rules
// say; an `Option` in each would take a word more, and say no more than they do.
#[derive(Clone, Copy, Default)]
pub struct Charger {
    pub max_power: Kw,
    pub current: Amperes,
    pub voltage: Volts,
    pub caps: [Amperes; 5],
}

// A connector that a charger and a vehicle can use, by its code, and the current that its lead carries.
#[derive(Clone, Copy)]
pub struct Lead {
    pub code: u8,
    pub current: Amperes,
}

// One with no power. What a derived `Default` promises, field by field, does not prove the equation.
pub fn no_charger() -> Charger
    ensures { result ≡ no_charger }
{
    Charger {
        max_power: Kw(0.0),
        current: Amperes(0.0),
        voltage: Volts(0.0),
        caps: [Amperes(0.0); 5],
    }
}

// The cap of the lead with a code, 0 A where it has none.
fn cap_of(charger: Charger, code: u8) -> Amperes
    ensures { result ≡ cap_of charger code }
{
    match code {
        1..=5 => charger.caps[usize::from(code - 1)],
        _ => Amperes(0.0),
    }
}

// The current through the lead with a code: the smaller of its cap, if it has one, and the charger's.
fn current_of(charger: Charger, code: u8) -> Amperes
    ensures { result ≡ current_of charger code }
{
    let cap = cap_of(charger, code);
    if cap.0 == 0.0 {
        return charger.current;
    }
    Amperes(min(cap.0, charger.current.0))
}

// The connector that the pair uses, with its current.
fn resolve_connector(charger: Charger, row: [bool; 5], vehicle: Vehicle) -> Option<Lead>
    ensures { result ≡ resolve charger row vehicle }
{
    connector_of(row, vehicle).map(|code| Lead {
        code,
        current: current_of(charger, code),
    })
}

// The most power that the charger can deliver by a current.
pub fn actual_max_power_kw(charger: Charger, current: Amperes) -> Kw
    ensures { result ≡ actual_max_power charger current }
{
    Kw(min(current.0 * charger.voltage.0 / 1000.0, charger.max_power.0))
}

// The most power that the charger can give the vehicle, 0 kW where they do not fit.
pub fn rated_power(charger: Charger, row: [bool; 5], vehicle: Vehicle) -> Kw
    ensures power { result ≡ rated_power charger row vehicle }
    ensures caps { CapsLower charger row vehicle result }
{
    match resolve_connector(charger, row, vehicle) {
        Some(lead) => actual_max_power_kw(charger, lead.current),
        None => Kw(0.0),
    }
}
