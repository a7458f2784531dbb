// A site whose curves rise by SOC, as those of a plan do: the rounds search them.
ghost use Rattle.power.specs.Code.Rising.{Rising, rising_prop};

use crate::site::Site;
use power::rising::RisingProfiles;

// The functions of a site that ask nothing of its curves take the site itself.
#[derive(Clone, Copy)]
pub struct RisingSite<'a> {
    pub site: &'a Site,
    ghost rising: { Rising site.now.curves site.now.lens } by { rising_prop site.now.curves site.now.lens },
}

impl<'a> RisingSite<'a> {
    ghost use Rattle.std.specs.Prelude.{◌≡◌};

    pub fn profiles(self) -> RisingProfiles<'a>
        ensures points { result.profiles.points.now ≡ self.entry.site.now.curves }
        ensures lens { result.profiles.lens.now ≡ self.entry.site.now.lens }
    {
        RisingProfiles {
            profiles: self.site.profiles(),
        }
    }
}
