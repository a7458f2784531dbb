// The two thin calls that alter a charger's state by reference, a round's power cap and its progress; and one charger's turn by both.
ghost use Rattle.std.specs.Prelude.{◌≡◌};
ghost use Rattle.power.specs.ChargerState.{is_finished};
ghost use Rattle.power.specs.ChargerState as Spec;
ghost use Rattle.power.specs.Code.Bank.{moved};

use crate::charger_state::ChargerState;
use curve::units::Kw;

pub fn set_power_cap(state: &mut ChargerState, cap: Kw)
    ensures { state.new ≡ Spec.with_cap cap state.old }
{
    *state = state.with_cap(cap);
}

pub fn progress(state: &mut ChargerState)
    ensures { state.new ≡ Spec.progress state.old }
{
    *state = state.progress();
}

// Both, for a state that comes and goes by value.
pub fn advanced(state: ChargerState, cap: Kw) -> ChargerState
    ensures { result ≡ Spec.progress (Spec.with_cap cap state) }
{
    let mut s = state;
    set_power_cap(&mut s, cap);
    progress(&mut s);
    s
}

// One charger's turn in the second pass: its cap and its progress. Says whether it is finished.
pub fn move_on(s: &mut ChargerState, cap: Kw) -> bool
    ensures moved { s.new ≡ moved cap s.old }
    ensures finished { result ≡ is_finished s.new.status }
{
    if s.status.is_free() {
        return false;
    }
    set_power_cap(s, cap);
    progress(s);
    s.status.is_finished()
}
