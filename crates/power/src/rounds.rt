// Rounds of power and progress: of one car alone, or of all that stand at the site. That the states are few is asked by clause, as in `power`.
ghost use Rattle.std.specs.Prelude.{◌≡◌, ◌≤◌, length};
ghost use Rattle.charger.specs.Code.Profiles.{curve_in};
ghost use Rattle.power.specs.Code.Bank.{Cars, spun};
ghost use Rattle.power.specs.Code.Rounds as Rounds;

use crate::alone::charge_alone;
use crate::charger_state::ChargerState;
use crate::power::{Limit, Spun, charge_together};
use crate::rising::RisingProfiles;
use arrayvec::ArrayVec;

// The places of the chargers that have a car.
fn busy_places(bank: &[ChargerState]) -> ArrayVec<usize, 32>
    requires { length bank.now ≤ 32 }
    ensures { Cars bank.now result.items }
{
    let mut places = ArrayVec::new();
    for i in 0..bank.len() {
        if !bank[i].status.is_free() {
            places.push(i);
        }
    }
    places
}

// The same, with no car, one or several.
pub fn charge_until(
    bank: &mut [ChargerState],
    rising: RisingProfiles<'_>,
    limit: Limit,
    count: u64,
) -> Spun
    requires few { length bank.old ≤ 32 }
    ensures { spun bank.new result ≡ Rounds.spin limit (curve_in rising.entry.profiles) 0 count bank.old }
{
    let busy = busy_places(bank);
    match busy.as_slice() {
        [] => Spun {
            rounds: count,
            any: false,
        },
        &[i] => charge_alone(bank, i, rising, limit, count),
        places => charge_together(bank, places, rising, limit, count),
    }
}
