// One car alone at the site: its rounds need no pass over the other chargers, and its state stays at hand.
ghost use Rattle.std.specs.Prelude.{◌≡◌, true, false, not, ◌&&◌, [], ◌∷◌};
ghost use Rattle.std.specs.Float.Ieee.{lt, ne};
ghost use Rattle.charger.specs.Code.Profiles.{curve_in};
ghost use Rattle.power.specs.ChargerState.{is_free, with_cap, delivered};
ghost use Rattle.power.specs.Code.Rounds.{spin};
ghost use Rattle.power.specs.Code.Alone.{cap_alone, round_alone, CapMatchesRequest};
ghost use Rattle.power.specs.Code.Bank.{Cars, spun};

use crate::charger_state::ChargerState;
use crate::even_shares::{cap_of_share, watts_asked};
use crate::power::{Limit, Spun, added, cap_of, scaling};
use crate::rising::RisingProfiles;
use crate::thin::{progress, set_power_cap};
use curve::float::same;
use curve::units::Kw;

// A car that asks for that power asks for no more than the rated one; a NaN is no power.
fn within(power: f64, rated: f64) -> bool
    ensures { result ≡ (not (ne power power) && not (lt rated power)) }
{
    !(power != power) & !(rated < power)
}

// A round of charging by the power cap. Where that is the cap of the round before, the next round need not wait for it.
fn by_cap(s: &mut ChargerState, cap: f64)
    ensures { s.new ≡ delivered cap (with_cap (record { 0 = cap }) s.old) }
{
    if same(cap, s.cap.0) {
        *s = s.delivered(s.cap.0);
        return;
    }
    set_power_cap(s, Kw(cap));
    *s = s.delivered(cap);
}

// Its cap, from what it asks for.
fn cap_alone(s: &ChargerState, limit: Limit) -> Kw
    ensures { result ≡ cap_alone limit s.now }
{
    match limit {
        Limit::Shared(watts) => cap_of_share(watts_asked(s).min(watts)),
        _ => cap_of(s, scaling(limit, added(0.0, s.status, s.draw()))),
    }
}

// A round. Where one factor gives the caps, and tests tell whether the car draws the rated power or what it asks for, the next round need not
// wait for the smaller of the two.
fn round(s: &mut ChargerState, power: Kw, limit: Limit)
    ensures { s.new ≡ round_alone limit power s.old }
{
    s.requested = power;
    let rated = s.rated;
    if limit.by_factor() & s.status.is_charging() {
        if rated.0 < power.0 {
            if !(scaling(limit, 0.0 + rated.0) < 1.0) {
                set_power_cap(s, rated);
                *s = s.delivered(rated.0);
                return;
            }
        }
        if within(power.0, rated.0) {
            let factor = scaling(limit, 0.0 + power.0);
            if factor < 1.0 {
                let cap = power.0 * factor;
                if cap < power.0 {
                    by_cap(s, cap);
                    return;
                }
            } else {
                set_power_cap(s, rated);
                *s = s.delivered(power.0);
                return;
            }
        }
    }
    let cap = cap_alone(s, limit);
    set_power_cap(s, cap);
    progress(s);
}

// The same round, which is short where the car still charges and asks for what it asked for in the round before: its cap stays then.
fn next(s: &mut ChargerState, power: Kw, limit: Limit, later: bool)
    requires { later ≡ true → CapMatchesRequest limit s.old }
    ensures { s.new ≡ round_alone limit power s.old }
{
    if later & s.status.is_charging() {
        if same(power.0, s.requested.0) {
            progress(s);
            return;
        }
    }
    round(s, power, limit);
}

// Up to `count` rounds, until the charger is finished.
fn rounds(s: &mut ChargerState, rising: RisingProfiles<'_>, limit: Limit, count: u64) -> Spun
    requires busy { is_free s.old.status ≡ false }
    ensures { spun (s.new ∷ []) result ≡ spin limit (curve_in rising.entry.profiles) 0 count (s.old ∷ []) }
{
    let mut segment = rising.profiles.reached(s.profile, s.soc);
    for k in 0..count {
        let place = rising.profiles.place(s.profile, segment, s.soc);
        segment = place.reached;
        next(s, place.power, limit, 0 < k);
        if s.status.is_finished() {
            return Spun {
                rounds: k + 1,
                any: true,
            };
        }
    }
    Spun {
        rounds: count,
        any: false,
    }
}

// `charge_until` where the car at the place i is the only one.
pub fn charge_alone(
    bank: &mut [ChargerState],
    i: usize,
    rising: RisingProfiles<'_>,
    limit: Limit,
    count: u64,
) -> Spun
    requires cars { Cars bank.old (i ∷ []) }
    ensures { spun bank.new result ≡ spin limit (curve_in rising.entry.profiles) 0 count bank.old }
{
    let mut s = bank[i];
    if s.status.is_free() {
        return Spun {
            rounds: count,
            any: false,
        };
    }
    let spun = rounds(&mut s, rising, limit, count);
    bank[i] = s;
    spun
}
