// The curves of the plan's profiles (charge_profile_list.rs), in one table.
ghost use Rattle.std.specs.Prelude.{◌≡◌};
ghost use Rattle.std.specs.Float.Ieee.{le};
ghost use Rattle.curve.specs.Code.Places.{place};
ghost use Rattle.curve.specs.Code.Rising.{Rises};
ghost use Rattle.curve.specs.Curve.{reached};
ghost use Rattle.charger.specs.Code.Profiles.{curve_in};

use curve::charge_profile::{Place, place_near};
use curve::points::{Point, reached};

// 32 points a profile, of which the first lens[k] are the curve of profile k. A site lends both. They are one table with lengths beside it,
// and no vector for each profile, since a curve is put in order in its part of the table.
#[derive(Clone, Copy)]
pub struct Profiles<'a> {
    pub points: &'a [Point],
    pub lens: &'a [u8],
}

impl<'a> Profiles<'a> {
    // A profile's curve; past the last profile the empty one.
    pub fn curve(self, profile: usize) -> &'a [Point]
        ensures { result.now ≡ curve_in self.entry profile }
    {
        let points = self.points;
        let lens = self.lens;
        if lens.len() <= profile {
            return &points[..0];
        }
        if points.len() / 32 < profile {
            return &points[..0];
        }
        let start = 32 * profile;
        let end = start + usize::from(lens[profile]);
        if points.len() < end {
            return &points[..0];
        }
        &points[start..end]
    }

    // Where `soc` lies on the curve of a profile, which rises: its segment, found at once if it is near the one given, and the power.
    // A round asks for it car by car: as a call it makes the rounds of several cars slower.
    #[inline(always)]
    pub fn place(self, profile: u8, near: usize, soc: f64) -> Place
        requires { Rises le (curve_in self profile) }
        ensures { result ≡ place (curve_in self.entry profile) soc }
    {
        place_near(self.curve(usize::from(profile)), near, soc)
    }

    // How many points of the curve of a profile are at or below `soc`: a first search, point by point.
    pub fn reached(self, profile: u8, soc: f64) -> usize
        ensures { result ≡ reached soc (curve_in self.entry profile) }
    {
        reached(self.curve(usize::from(profile)), soc)
    }
}
