// Profiles whose curves rise by SOC, as those of a plan do: what the rounds search.
ghost use Rattle.std.specs.Float.Ieee.{le};
ghost use Rattle.power.specs.Code.Rising.{Rising, rising_prop};

use charger::charge_profile_list::Profiles;

#[derive(Clone, Copy)]
pub struct RisingProfiles<'a> {
    pub profiles: Profiles<'a>,
    ghost rising: { Rising profiles.points.now profiles.lens.now } by { rising_prop profiles.points.now profiles.lens.now },
}
