// Refusal 12: a vehicle and a charger that fit, and the charge duration is not within 0 to 604,800 s.
ghost use Rattle.std.specs.Prelude.{◌≡◌, length};
ghost use Rattle.engine.specs.Code.Simulation.{plan_of};
ghost use Rattle.plan.specs.Search.{first_index, short_of};
ghost use Rattle.files.specs.Pairs.{fails_at, failing_charger, failing_pair};

use charger::vehicle::fits;
use engine::site::Site;

// The pair fits, and cannot be charged in time.
fn fails(site: &Site, v: usize, c: usize) -> bool
    ensures { result ≡ fails_at (plan_of site.now) v c }
{
    if !fits(site.row(c), site.vehicles.get_vehicle(v)) {
        return false;
    }
    let duration = site.output(v, c).duration.0;
    !((0.0 <= duration) & (duration <= 604800.0))
}

// The first of the chargers that the vehicle fails at.
fn failing_charger(site: &Site, v: usize) -> Option<usize>
    ensures { result ≡ short_of (failing_charger (plan_of site.now) v) (length site.now.chargers.items) }
{
    for c in 0..site.chargers.len() {
        if fails(site, v, c) {
            return Some(c);
        }
    }
    None
}

// The first vehicle that fails at some charger, with the first such charger, each by its place among its kind.
pub fn failing_pair(site: &Site) -> Option<(usize, usize)>
    ensures { result ≡ failing_pair (plan_of site.now) }
{
    for v in 0..site.vehicles.vehicles.len() {
        if let Some(c) = failing_charger(site, v) {
            return Some((v, c));
        }
    }
    None
}
