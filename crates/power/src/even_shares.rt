// Even shares of the site's limit (request 10): the charging cars' whole watts, shared, and each car's round under its share.
ghost use Rattle.std.specs.Prelude.{◌≡◌, false, map, ◌≤◌, length};
ghost use Rattle.power.specs.ChargerState.{progress};
ghost use Rattle.power.specs.Code.Bank.{Cars};
ghost use Rattle.power.specs.Code.Deal.{watts_at, dealt, any_dealt};
ghost use Rattle.power.specs.Code.Rounds as Rounds;
ghost use Rattle.power.specs.Power as Spec;

use crate::charger_state::ChargerState;
use crate::thin::move_on;
use arrayvec::ArrayVec;
use curve::units::Kw;
use shares::even::share;
use shares::watts::{kilowatts, watts};

// What a car asks for in whole watts, if it charges.
pub fn watts_asked(s: &ChargerState) -> u64
    ensures { result ≡ Spec.watts_asked s.now }
{
    if s.status.is_charging() {
        return watts(s.draw());
    }
    0
}

// The cap that a share is.
pub fn cap_of_share(share: u64) -> Kw
    ensures { result ≡ Spec.cap_of_share share }
{
    Kw(kilowatts(share))
}

// What the cars at the places `busy` ask for.
fn ask(bank: &[ChargerState], busy: &[usize]) -> ArrayVec<u64, 32>
    requires few { length bank.now ≤ 32 }
    requires cars { Cars bank.now busy.now }
    ensures { result.items ≡ watts_at bank.now busy.now }
{
    let mut watts = ArrayVec::new();
    for &i in busy {
        watts.push(watts_asked(&bank[i]));
    }
    watts
}

// Each listed car's cap, from the share at its place in `shares`, and its progress. Says whether some charger is finished.
fn deal(bank: &mut [ChargerState], busy: &[usize], shares: &[u64]) -> bool
    requires cars { Cars bank.old busy.now }
    requires places { length shares.now ≡ length busy.now }
    ensures moved { bank.new ≡ dealt busy.now shares.now bank.old }
    ensures any { result ≡ any_dealt busy.now shares.now bank.old }
{
    let mut any = false;
    for k in 0..busy.len() {
        any |= move_on(&mut bank[busy[k]], cap_of_share(shares[k]));
    }
    any
}

// The second pass by even shares of the limit, which is in whole watts. Says whether some charger is finished.
pub fn advance_evenly(bank: &mut [ChargerState], busy: &[usize], limit: u64) -> bool
    requires few { length bank.old ≤ 32 }
    requires cars { Cars bank.old busy.now }
    ensures moved { bank.new ≡ map progress (Spec.with_caps (Spec.even_caps limit bank.old) bank.old) }
    ensures any { result ≡ Rounds.any_finished false bank.new }
{
    let mut watts = ask(bank, busy);
    share(watts.as_mut_slice(), limit);
    deal(bank, busy, watts.as_slice())
}
