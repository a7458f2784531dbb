// Events and their order (events.rs), which is request 4's.
ghost use Rattle.std.specs.Prelude.{◌≡◌, ◌+◌, ◌<◌, ◌≤◌, [], length, slice_get, position, reverse, not};
ghost use Rattle.charger.specs.Lists.{All};
ghost use Rattle.charger.specs.Code.Vehicles.{listed};
ghost use Rattle.engine.specs.Code.Simulation.{InTime};
ghost use Rattle.engine.specs.Events.{rank, place_of, before, push, Ordered, generate};

use charger::vehicle_list::VehicleList;
use fixed_vec::FixedVec;
use std::marker::Model;

#[derive(Clone, Copy, PartialEq, Default)]
pub enum EventType {
    #[default]
    Arrival,
    Renege,
    Unplug,
}

// `charger` is 0 where the event is no unplug.
#[derive(Clone, Copy, Default)]
pub struct Event {
    pub time: u64,
    pub kind: EventType,
    pub vehicle: usize,
    pub charger: usize,
}

// Where its kind stands among the events of one second: not by the numbers that a dump has for the kinds, which are those of the cases.
fn rank(e: Event) -> u64
    ensures { result ≡ rank e.kind }
{
    match e.kind {
        EventType::Unplug => 0,
        EventType::Arrival => 1,
        EventType::Renege => 2,
    }
}

// Its place among those of its kind.
fn place_in_plan(e: Event) -> usize
    ensures { result ≡ place_of e }
{
    match e.kind {
        EventType::Unplug => e.charger,
        EventType::Arrival => e.vehicle,
        EventType::Renege => e.vehicle,
    }
}

// Whether `a` pops before `b`.
#[tactic(auto, unfolding(crate::specs::Events::before))]
fn pops_before(a: Event, b: Event) -> bool
    ensures { result ≡ before a b }
{
    (a.time, rank(a), place_in_plan(a)) < (b.time, rank(b), place_in_plan(b))
}

// The pending events, the next to pop last, and how many were handled before them. A plan of 64 vehicles has at most 192 events.
#[derive(Clone, Copy)]
pub struct EventQueue {
    items: FixedVec<Event, 192>,
    handled: usize,
}

impl Model for EventQueue {
    ghost use Rattle.std.specs.Prelude.{◌+◌, ◌≤◌, length, reverse};
    ghost use Rattle.std.proofs.lemmas.List.{reverse-reverse};
    ghost use Rattle.engine.specs.Code.Events.{Queued};

    ghost Value = { Queued };

    ghost view = { λ q. record { pending = reverse q.items.items; handled = q.handled; room = q.items.room } };

    ghost invariant = { λ q. q.handled + length q.items.items ≤ 192 };

    ghost inverse = { λ q. record { items = record { items = reverse q.pending; room = q.room }; handled = q.handled } };

    ghost inverse_ok = { λ q h i. record {
      items = record { items = reverse-reverse q.items.items i; room = q.items.room };
      handled = q.handled;
    } };
}

impl EventQueue {
    ghost use Rattle.std.specs.Prelude.{◌==◌};
    ghost use Rattle.engine.specs.Code.Events.{Pops, PopsDue};

    // How many were handled.
    pub fn handled(&self) -> usize
        ensures value { result ≡ self.now.handled }
        ensures bound { result + length self.now.pending ≤ 192 }
    {
        self.handled
    }

    pub fn is_empty(&self) -> bool
        ensures { result ≡ (length self.now.pending == 0) }
    {
        self.items.is_empty()
    }

    // The events in the order in which they are kept: the next to pop last.
    pub fn as_slice(&self) -> &[Event]
        ensures items { self.now.pending ≡ reverse result.now }
        ensures bound { self.now.handled + length result.now ≤ 192 }
    {
        self.items.as_slice()
    }

    // The event that pops first.
    pub fn first(&self) -> Option<Event>
        ensures { result ≡ slice_get self.now.pending 0 }
    {
        self.items.last().copied()
    }

    // It is popped, and counts as handled.
    pub fn pop(&mut self) -> Option<Event>
        ensures { Pops self.old self.new result }
    {
        let event = self.items.pop()?;
        self.handled += 1;
        Some(event)
    }

    // The event that pops first is popped, if it is due.
    pub fn pop_due(&mut self, time: u64) -> Option<Event>
        ensures { PopsDue time self.old self.new result }
    {
        if self.first()?.time <= time {
            self.pop()
        } else {
            None
        }
    }

    #[tactic(auto, using(crate::proofs::events::Push::push_kept))]
    pub fn push(&mut self, e: Event)
        requires { self.old.handled + length self.old.pending < 192 }
        ensures pending { self.new.pending ≡ push e self.old.pending }
        ensures handled { self.new.handled ≡ self.old.handled }
    {
        let many = self.items.len();
        let ahead = ahead(self.items.as_slice(), e).unwrap_or(many);
        self.items.insert(many - ahead, e);
    }
}

// How many, from the back, pop before an event.
fn ahead(events: &[Event], e: Event) -> Option<usize>
    ensures { result ≡ position (before e) (reverse events.now) }
{
    events.iter().rev().position(|x| pops_before(e, *x))
}

// How many, from the back, an event pops before.
fn behind(events: &[Event], e: Event) -> Option<usize>
    ensures { result ≡ position (λ x. not (before e x)) (reverse events.now) }
{
    events.iter().rev().position(|x| !pops_before(e, *x))
}

// Puts an event among those that stand in order, the next to pop first, so that vehicles in the order of their arrivals find their place at
// the back and move little. `EventQueue::push` would do, and proves, but takes nine times as long for these, and a third longer for drawn ones.
#[tactic(auto, using(crate::proofs::events::Push::push_back))]
fn put(events: &mut FixedVec<Event, 192>, e: Event)
    requires room { length events.old.items < 192 }
    requires order { Ordered events.old.items }
    ensures { events.new.items ≡ push e events.old.items }
{
    let many = events.len();
    let behind = behind(events.as_slice(), e).unwrap_or(many);
    events.insert(many - behind, e);
}

// The arrival and the renege of each vehicle, pushed in plan order.
pub fn generate_arrival_events(vehicles: &VehicleList) -> EventQueue
    requires { All InTime (listed vehicles.now) }
    ensures pending { result.pending ≡ generate 0 (listed vehicles.now) [] }
    ensures handled { result.handled ≡ 0 }
    ensures bound { length result.pending ≤ 128 }
{
    let mut events = FixedVec::<Event, 192>::new();
    for (v, x) in vehicles.vehicles.iter().enumerate() {
        put(
            &mut events,
            Event {
                time: x.arrival,
                kind: EventType::Arrival,
                vehicle: v,
                charger: 0,
            },
        );
        put(
            &mut events,
            Event {
                time: x.arrival + x.wait,
                kind: EventType::Renege,
                vehicle: v,
                charger: 0,
            },
        );
    }
    events.reverse();
    EventQueue {
        items: events,
        handled: 0,
    }
}
