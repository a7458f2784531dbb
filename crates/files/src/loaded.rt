// A plan that is fine, with the site that was read from it.
ghost use Rattle.std.proofs.Props.{props};
ghost use Rattle.files.specs.Code.Reading.{Loaded};

use engine::site::Site;

// It is made where `read_admitted` has answered Ok, and what runs a plan takes it.
#[derive(Clone, Copy)]
pub struct LoadedPlan<'a> {
    pub plan: &'a [u8],
    pub site: &'a Site,
    pub ghost loaded: { Loaded plan.now site.now } by { Prim.hlevel props },
}
