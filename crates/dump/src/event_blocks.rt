// Blocks of pending events, 31 a block, in the order in which they pop.
ghost use Rattle.std.specs.Prelude.{◌≡◌, ◌+◌, ◌*◌, ◌≤◌, length, reverse, slice_get};
ghost use Rattle.std.proofs.lemmas.List.Edits.{sets};
ghost use Rattle.charger.specs.Lists.{All};
ghost use Rattle.dump.specs.EventBlocks.{block_by, event_bytes, event_slot, length-slot, blocks_of_events, event_blocks};
ghost use Rattle.dump.specs.Code.Dumping.{NearEvent, near-one};

use engine::events::{Event, EventType};
use plan::bytes::{put, put_fields};
use plan::places::{Kind, PlanFile};
use plan::records::{Records, put_blocks};

// The pending events, with the plan whose blocks they name; zero bytes stand past the last.
#[derive(Clone, Copy)]
struct Events<'a> {
    plan: &'a PlanFile<'a>,
    events: &'a [Event],
    ghost near: { All NearEvent (reverse events.now) } by { near-one _ },
}

// The block in the plan that an event names: for an unplug the charger's, else the vehicle's.
fn block_by(plan: &PlanFile, e: Event) -> usize
    requires { NearEvent e }
    ensures { result ≡ block_by plan.now e.kind e.vehicle e.charger }
{
    match e.kind {
        EventType::Arrival => plan.place_of(Kind::Vehicle, e.vehicle),
        EventType::Renege => plan.place_of(Kind::Vehicle, e.vehicle),
        EventType::Unplug => plan.place_of(Kind::Charger, e.charger),
    }
}

// Stores the 16 bytes of an event into s from at.
#[tactic(auto, unfolding(crate::specs::EventBlocks::event_bytes, plan::specs::Bytes::fields, plan::specs::Bytes::bytes))]
fn put_event(s: &mut [u8], at: usize, plan: &PlanFile, e: Event)
    requires room { at + 16 ≤ length s.old }
    requires near { NearEvent e }
    ensures { s.new ≡ sets s.old at (event_bytes plan.now e) }
{
    let block = block_by(plan, e) as u64;
    let f: [(usize, u64); 5] = [(8, e.time), (1, e.kind as u64), (1, 0), (2, block), (4, 0)];
    put_fields(s, at, &f);
}

// The event at a place in the order in which they pop; they are kept the other way round.
fn event_at(events: &[Event], k: usize) -> Option<Event>
    ensures { result ≡ slice_get (reverse events.now) k }
{
    if k < events.len() {
        return Some(events[events.len() - 1 - k]);
    }
    None
}

impl Records<16> for Events<'_> {
    ghost slot = { λ x. event_slot x.plan.now (reverse x.events.now) };

    ghost wide = { λ x. length-slot x.plan.now (reverse x.events.now) };

    fn put(&self, s: &mut [u8], at: usize, k: usize) {
        match event_at(self.events, k) {
            Some(e) => put_event(s, at, self.plan, e),
            None => put(s, at, 16, 0),
        }
    }
}

// Stores the blocks of the pending events into s from at; the first of them is the place-th of its file.
pub fn put_event_blocks(s: &mut [u8], at: usize, place: u32, plan: &PlanFile, events: &[Event])
    requires few { length events.now ≤ 192 }
    requires room { at + 512 * blocks_of_events (length events.now) ≤ length s.old }
    requires near { All NearEvent (reverse events.now) }
    requires place { place ≤ 65536 }
    ensures { s.new ≡ sets s.old at (event_blocks place plan.now (reverse events.now)) }
{
    let blocks = (events.len() + 30) / 31;
    put_blocks(s, at, place, &Events { plan, events }, 31, blocks);
}
