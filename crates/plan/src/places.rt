// Where a plan's blocks stand: a header, and then as many profiles, chargers and vehicles as it says.
ghost use Rattle.std.specs.Prelude.{◌≡◌, ℕ, ◌+◌, ◌*◌, ◌<◌, ◌≤◌, List, length};
ghost use Rattle.plan.specs.Places.{profile_count, charger_count, vehicle_count, kind_at, start_of, block_of, place_of};

use crate::blocks::block;
use crate::bytes::u16_at;
use std::marker::Model;

// The kinds of blocks, in the plan's order.
#[derive(Clone, Copy, Debug, PartialEq, Eq)]
pub enum Kind {
    Header,
    Profile,
    Charger,
    Vehicle,
}

// The bytes of a plan, with a header at least.
#[derive(Drop)]
pub struct PlanFile<'a> {
    pub bytes: &'a [u8],
}

impl<'a> Model for PlanFile<'a> {
    ghost Value = { List ℕ };

    ghost view = { λ f. f.bytes.now };

    ghost invariant = { λ f. 512 ≤ length f.bytes.now };
}

impl<'a> PlanFile<'a> {
    // P, C and V, as the rules call them: how many profiles, chargers and vehicles a plan has.
    pub fn profile_count(&self) -> usize
        ensures { (result ≡ profile_count self.now) × (result < 65536) }
    {
        u16_at(self.bytes, 4)
    }

    pub fn charger_count(&self) -> usize
        ensures { (result ≡ charger_count self.now) × (result < 65536) }
    {
        u16_at(self.bytes, 6)
    }

    pub fn vehicle_count(&self) -> usize
        ensures { (result ≡ vehicle_count self.now) × (result < 65536) }
    {
        u16_at(self.bytes, 8)
    }

    // The kind of the block at the index k.
    pub fn kind_at(&self, k: usize) -> Kind
        ensures { result ≡ kind_at self.now k }
    {
        let profiles = self.profile_count();
        let chargers = self.charger_count();
        if k == 0 {
            return Kind::Header;
        }
        if k <= profiles {
            return Kind::Profile;
        }
        if k <= profiles + chargers {
            return Kind::Charger;
        }
        Kind::Vehicle
    }

    // The index of the first block of a kind.
    pub fn start_of(&self, kind: Kind) -> usize
        ensures { (result ≡ start_of self.now kind) × (result < 131072) }
    {
        match kind {
            Kind::Header => 0,
            Kind::Profile => 1,
            Kind::Charger => 1 + self.profile_count(),
            Kind::Vehicle => 1 + self.profile_count() + self.charger_count(),
        }
    }

    // The i-th block of a kind, counted from 0.
    pub fn block_of(&self, kind: Kind, i: usize) -> &'a [u8; 512]
        requires { 512 * (start_of self.now kind + i) + 512 ≤ length self.now }
        ensures { result.now ≡ block_of self.now kind i }
    {
        block(self.bytes, self.start_of(kind) + i)
    }

    // The place of the i-th block of a kind, where the first block of the file has place 1.
    pub fn place_of(&self, kind: Kind, i: usize) -> usize
        requires { i < 65536 }
        ensures { result ≡ place_of self.now kind i }
    {
        self.start_of(kind) + i + 1
    }
}
