// What the book says of a session.
ghost use Rattle.std.specs.Prelude.{◌≡◌, map, ◌+◌, ◌≤◌, length};
ghost use Rattle.charger.specs.Lists.{All};
ghost use Rattle.charger.specs.Vehicle.{connector_of};
ghost use Rattle.charger.specs.Code.Vehicles.{listed};
ghost use Rattle.engine.specs.Plan.{row_at};
ghost use Rattle.engine.specs.Code.Simulation.{connectors_of};
ghost use Rattle.files.specs.Code.Writing.{rows_of};
ghost use Rattle.files.specs.BookSession.{plugged as BookSession·plugged, charged as BookSession·charged, kept as BookSession·kept, code_of, vehicle_number, charger_id, entry as BookSession·entry, Fits};

use crate::counted::CountedPlan;
use arrayvec::ArrayVec;
use charger::vehicle::{Vehicle, connector_of};
use curve::float::to_bits;
use engine::session::Session;
use engine::site::Site;
use plan::bytes::u32_at;
use plan::places::Kind;

// A session as the book holds it, floats by their bits; what is missing by its outcome is 0. A book that is read may hold any byte for an
// outcome, so it stands by its number.
#[derive(Clone, Copy, Default)]
pub struct BookSession {
    pub vehicle_id: u32,
    pub profile_id: u32,
    pub charger_id: u32,
    pub connector: u8,
    pub outcome: u8,
    pub fleet: u16,
    pub arrival: u64,
    pub plugin: u64,
    pub unplug: u64,
    pub wait: u64,
    pub duration: u64,
    pub idle: u64,
    pub peak: u64,
    pub energy: u64,
    pub start: u64,
    pub end: u64,
}

// A session of that outcome's number has a charger.
pub fn plugged(outcome: u8) -> bool
    ensures { result ≡ BookSession·plugged outcome }
{
    outcome <= 1
}

// It has its unplug time and its charging output.
pub fn charged(outcome: u8) -> bool
    ensures { result ≡ BookSession·charged outcome }
{
    outcome == 1
}

// A number, 0 where it is missing.
fn kept(there: bool, x: u64) -> u64
    ensures { result ≡ BookSession·kept there x }
{
    if there { x } else { 0 }
}

// A number of a vehicle's block: its id at 0, its profile's id at 4.
#[tactic(auto, unfolding(crate::specs::BookSession::vehicle_number))]
pub fn vehicle_number(plan: &CountedPlan, v: usize, at: usize) -> u32
    requires { at + 4 ≤ 512 }
    ensures { result ≡ vehicle_number plan.now.file v at }
{
    if v < plan.file.vehicle_count() {
        return u32_at(plan.file.block_of(Kind::Vehicle, v), at);
    }
    0
}

// The id of the charger that the session has.
#[tactic(auto, unfolding(crate::specs::BookSession::charger_id))]
fn charger_id(plan: &CountedPlan, there: bool, c: usize) -> u32
    ensures { result ≡ BookSession·kept there (charger_id plan.now.file c) }
{
    if !there {
        return 0;
    }
    if c < plan.file.charger_count() {
        return u32_at(plan.file.block_of(Kind::Charger, c), 0);
    }
    0
}

// The code of the connector that the session has.
fn connector_code(there: bool, row: [bool; 5], vehicle: Vehicle) -> u8
    ensures { result ≡ BookSession·kept there (code_of (connector_of row vehicle)) }
{
    if !there {
        return 0;
    }
    connector_of(row, vehicle).unwrap_or(0)
}

// The connectors of a charger of the plan; none past its last. The plan counts them: the site may have more or fewer chargers.
fn row(plan: &CountedPlan, site: &Site, c: usize) -> [bool; 5]
    ensures { result ≡ row_at (rows_of plan.now.file site.now) c }
{
    let rows = &site.rows[..plan.file.charger_count()];
    rows.get(c).copied().unwrap_or([false; 5])
}

// What the book says of a session.
fn entry(plan: &CountedPlan, site: &Site, x: &Session) -> BookSession
    ensures { result ≡ BookSession·entry plan.now.file (listed site.now.vehicles) (rows_of plan.now.file site.now) x.now }
{
    let outcome = x.outcome as u8;
    let there = plugged(outcome);
    let done = charged(outcome);
    let vehicle = site.vehicles.get_vehicle(x.vehicle);
    BookSession {
        vehicle_id: vehicle_number(plan, x.vehicle, 0),
        profile_id: vehicle_number(plan, x.vehicle, 4),
        charger_id: charger_id(plan, there, x.charger),
        connector: connector_code(there, row(plan, site, x.charger), vehicle),
        outcome,
        fleet: vehicle.fleet,
        arrival: vehicle.arrival,
        plugin: kept(there, x.plugin),
        unplug: kept(done, x.unplug),
        wait: x.wait,
        duration: kept(done, to_bits(x.duration.0)),
        idle: kept(there, to_bits(vehicle.idle.0)),
        peak: kept(done, to_bits(x.peak.0)),
        energy: kept(done, to_bits(x.energy.0)),
        start: to_bits(vehicle.start),
        end: kept(there, to_bits(vehicle.target)),
    }
}

// What the book says of all sessions: the plan counts the chargers. A slice carries no bound, so a clause asks that they are few.
pub fn entries_of_plan(
    plan: &CountedPlan,
    site: &Site,
    sessions: &[Session],
) -> ArrayVec<BookSession, 64>
    requires few { length sessions.now ≤ 64 }
    ensures entries { result.items ≡ map (BookSession·entry plan.now.file (listed site.now.vehicles) (rows_of plan.now.file site.now)) sessions.now }
    ensures fit { All Fits result.items }
{
    let mut all = ArrayVec::new();
    for x in sessions {
        all.push(entry(plan, site, x));
    }
    all
}

// What it would say of a session if the site counted the chargers.
fn entry_of_site(plan: &CountedPlan, site: &Site, x: &Session) -> BookSession
    ensures { result ≡ BookSession·entry plan.now.file (listed site.now.vehicles) (connectors_of site.now) x.now }
{
    let there = plugged(x.outcome as u8);
    let vehicle = site.vehicles.get_vehicle(x.vehicle);
    BookSession {
        connector: connector_code(there, site.row(x.charger), vehicle),
        ..entry(plan, site, x)
    }
}

// The same of all sessions. No call of the product needs it: a site that was read has as many chargers as its plan.
pub fn entries(plan: &CountedPlan, site: &Site, sessions: &[Session]) -> ArrayVec<BookSession, 64>
    requires few { length sessions.now ≤ 64 }
    ensures entries { result.items ≡ map (BookSession·entry plan.now.file (listed site.now.vehicles) (connectors_of site.now)) sessions.now }
    ensures fit { All Fits result.items }
{
    let mut all = ArrayVec::new();
    for x in sessions {
        all.push(entry_of_site(plan, site, x));
    }
    all
}
