// The site's power (evse/site.rs), and rounds over the bank: the states of all chargers, in one lent slice. That they are few, and that the
// places are the cars', is asked by clause: a struct of the two slices would be made in each call only to be taken apart.
ghost use Rattle.std.specs.Prelude.{◌≡◌, false, map, ◌≤◌, length};
ghost use Rattle.curve.specs.F64.{ratio};
ghost use Rattle.charger.specs.Code.Profiles.{curve_in};
ghost use Rattle.power.specs.Code.Alone.{by_factor};
ghost use Rattle.power.specs.Code.Bank.{Cars, advanced, spun};
ghost use Rattle.power.specs.EvenShares.{SharedEvenly};
ghost use Rattle.power.specs.Parked.{ParkedDrawNothing};
ghost use Rattle.power.specs.Power as Spec;
ghost use Rattle.power.specs.Code.Rounds as Rounds;

use crate::charger_state::{ChargerState, Status};
use crate::even_shares::advance_evenly;
use crate::rising::RisingProfiles;
use crate::thin::move_on;
use curve::units::Kw;

// The most that all chargers may draw together: each scaled alike, or whole watts that they share evenly (request 10).
#[derive(Clone, Copy)]
pub enum Limit {
    Unlimited,
    AtMost(Kw),
    Shared(u64),
}

impl Limit {
    // Whether one factor gives every cap.
    pub fn by_factor(self) -> bool
        ensures { result ≡ by_factor self }
    {
        match self {
            Limit::Shared(_) => false,
            _ => true,
        }
    }
}

// The limit's part of the sum, if the sum is strictly above the limit. One that is shared evenly scales nothing, and is not asked.
pub fn scaling(limit: Limit, sum: f64) -> f64
    ensures { result ≡ Spec.scaling limit sum }
{
    match limit {
        Limit::Unlimited => 1.0,
        Limit::AtMost(kw) => { if kw.0 < sum { kw.0 / sum } else { 1.0 } }
        Limit::Shared(_) => 1.0,
    }
}

// The cap that a factor leaves a car: what it draws, scaled, if the factor is below 1, else the rated power.
pub fn cap_of(s: &ChargerState, factor: f64) -> Kw
    ensures { result ≡ Spec.cap_of factor s.now }
{
    if factor < 1.0 {
        return Kw(s.draw() * factor);
    }
    s.rated
}

// The sum with what a car draws, if it charges. Parked cars draw nothing.
pub fn added(sum: f64, status: Status, draw: f64) -> f64
    ensures { result ≡ Spec.added_by sum status draw }
{
    match status {
        Status::Charging => sum + draw,
        _ => sum,
    }
}

// One charger's turn in the first pass: its request, and the sum with what it draws. `segment` is the one of its curve that was found
// last, which is where the search begins.
fn request(s: &mut ChargerState, rising: RisingProfiles<'_>, segment: &mut usize, sum: f64) -> f64
    ensures asked { s.new ≡ Spec.active (Spec.request (curve_in rising.entry.profiles)) s.old }
    ensures summed { result ≡ Spec.added sum s.new }
{
    if s.status.is_free() {
        return sum;
    }
    let place = rising.profiles.place(s.profile, *segment, s.soc);
    *segment = place.reached;
    s.requested = place.power;
    added(sum, s.status, s.draw())
}

// The first pass: every car's request, and the sum of what those draw that charge. `busy` has the places of the cars, and `segments`
// a segment for each charger.
fn request_power(
    bank: &mut [ChargerState],
    busy: &[usize],
    rising: RisingProfiles<'_>,
    segments: &mut [usize; 32],
) -> f64
    requires few { length bank.old ≤ 32 }
    requires cars { Cars bank.old busy.now }
    ensures asked { bank.new ≡ map (Spec.active (Spec.request (curve_in rising.entry.profiles))) bank.old }
    ensures summed { result ≡ Spec.total (ratio 0 1) bank.new }
{
    let mut sum = 0.0;
    for &i in busy {
        sum = request(&mut bank[i], rising, &mut segments[i], sum);
    }
    sum
}

// The second pass: every car's cap, by the one factor, and progress. Says whether some charger is finished.
fn advance(bank: &mut [ChargerState], busy: &[usize], factor: f64) -> bool
    requires cars { Cars bank.old busy.now }
    ensures moved { bank.new ≡ map (advanced factor) bank.old }
    ensures any { result ≡ Rounds.any_finished false bank.new }
{
    let mut any = false;
    for &i in busy {
        let s = &mut bank[i];
        let cap = cap_of(s, factor);
        any |= move_on(s, cap);
    }
    any
}

// A round of power and progress. Says whether some charger is finished.
fn charge(
    bank: &mut [ChargerState],
    busy: &[usize],
    rising: RisingProfiles<'_>,
    segments: &mut [usize; 32],
    limit: Limit,
) -> bool
    requires few { length bank.old ≤ 32 }
    requires cars { Cars bank.old busy.now }
    ensures moved { bank.new ≡ Spec.charge limit (curve_in rising.entry.profiles) bank.old }
    ensures any { result ≡ Rounds.any_finished false bank.new }
    ensures even { SharedEvenly limit (curve_in rising.entry.profiles) bank.old bank.new }
    ensures parked { ParkedDrawNothing limit (curve_in rising.entry.profiles) bank.old bank.new }
{
    let sum = request_power(bank, busy, rising, segments);
    match limit {
        Limit::Shared(watts) => advance_evenly(bank, busy, watts),
        _ => advance(bank, busy, scaling(limit, sum)),
    }
}

// How many rounds were charged, and whether a charger is finished.
#[derive(Clone, Copy)]
pub struct Spun {
    pub rounds: u64,
    pub any: bool,
}

// Rounds of power and progress, up to `count` of them, until some charger is finished. `busy` has the places of the cars.
pub fn charge_together(
    bank: &mut [ChargerState],
    busy: &[usize],
    rising: RisingProfiles<'_>,
    limit: Limit,
    count: u64,
) -> Spun
    requires few { length bank.old ≤ 32 }
    requires cars { Cars bank.old busy.now }
    ensures { spun bank.new result ≡ Rounds.spin limit (curve_in rising.entry.profiles) 0 count bank.old }
{
    let mut segments: [usize; 32] = [0; 32];
    for k in 0..count {
        if charge(bank, busy, rising, &mut segments, limit) {
            return Spun {
                rounds: k + 1,
                any: true,
            };
        }
    }
    Spun {
        rounds: count,
        any: false,
    }
}
