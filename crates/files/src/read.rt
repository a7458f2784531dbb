// A plan read into what the engines work on. The plan's header says how many blocks of each kind follow.
ghost use Rattle.std.specs.Prelude.{◌≡◌, ℕ, ◌+◌, ◌≤◌, ◌<◌, length, take};
ghost use Rattle.charger.specs.Code.Vehicles.{listed};
ghost use Rattle.charger.specs.Code.Profiles.{curve_at};
ghost use Rattle.engine.specs.Code.Simulation.{battery_at, plan_of};
ghost use Rattle.plan.specs.Search.{each};
ghost use Rattle.plan.specs.Places.{charger_count};
ghost use Rattle.files.specs.Read.{point_at, curve_of_profile, battery_of, codes_at, caps_of, charger_of, row_of_charger, chargers_of, connector_rows, profile_index, vehicle_of, vehicles_of, queue_places_of, limit_of, read_plan};

use crate::counted::CountedPlan;
use charger::charger::Charger;
use charger::connector::{connector_row, connectors_of};
use charger::vehicle::Vehicle;
use charger::vehicle_list::VehicleList;
use curve::points::Point;
use curve::sort;
use curve::units::{Amperes, Kw, Kwh, Seconds, Volts};
use engine::site::Site;
use fixed_vec::FixedVec;
use plan::bytes::{u8_at, u16_at, u32_at, u64_at};
use plan::fields::{f64_at, point_count};
use plan::ids::with_id;
use plan::places::{Kind, PlanFile};
use power::power::Limit;
use shares::watts::watts;

// Stores the first n points of a profile's block. Bounds on a number of points are asked by clause, as in `fields`.
fn store_points(points: &mut [Point], b: &[u8; 512], n: usize)
    requires { (n ≤ 30) × (n ≤ length points.old) }
    ensures { take n points.new ≡ each (point_at b.now) 0 n }
{
    for i in 0..n {
        points[i] = Point {
            soc: f64_at(b, 16 + 16 * i),
            power: Kw(f64_at(b, 24 + 16 * i)),
        };
    }
}

// Makes the curve of the profile at the place k, and gives how many points it has; past the last profile none.
fn read_curve(curve: &mut [Point], plan: &CountedPlan, k: usize) -> usize
    requires { length curve.old ≡ 32 }
    ensures { (take result curve.new ≡ curve_of_profile plan.now.file k) × (result ≤ 32) }
{
    if k < plan.file.profile_count() {
        let b = plan.file.block_of(Kind::Profile, k);
        let n = point_count(b);
        store_points(curve, b, n);
        return sort::new(curve, n);
    }
    0
}

// Puts every profile's curve into the table.
pub fn read_curves(curves: &mut [Point], lens: &mut [u8], plan: &CountedPlan)
    requires { (length curves.old ≡ 512) × (length lens.old ≡ 16) }
    ensures { (k : ℕ) → curve_at curves.new lens.new k ≡ curve_of_profile plan.now.file k }
{
    for k in 0..16 {
        let start = 32 * k;
        let n = read_curve(&mut curves[start..start + 32], plan, k);
        lens[k] = n as u8;
    }
}

// The battery of the profile at the place k; past the last profile an empty one.
fn read_battery(plan: &CountedPlan, k: usize) -> Kwh
    ensures { result ≡ battery_of plan.now.file k }
{
    if k < plan.file.profile_count() {
        return Kwh(f64_at(plan.file.block_of(Kind::Profile, k), 8));
    }
    Kwh(0.0)
}

// The batteries of the profiles.
pub fn read_batteries(plan: &CountedPlan) -> [Kwh; 16]
    ensures { (k : ℕ) → battery_at result k ≡ battery_of plan.now.file k }
{
    let mut all = [Kwh(0.0); 16];
    for k in 0..16 {
        all[k] = read_battery(plan, k);
    }
    all
}

// The five bytes for connector codes from at.
fn codes_at(b: &[u8], at: usize) -> [u8; 5]
    requires { at + 5 ≤ length b.now }
    ensures { result ≡ codes_at b.now at }
{
    *b[at..].first_chunk().unwrap()
}

// The caps of a charger's leads, by connector code from 1.
fn read_caps(b: &[u8; 512]) -> [Amperes; 5]
    ensures { result ≡ caps_of b.now }
{
    [
        Amperes(f64_at(b, 40)),
        Amperes(f64_at(b, 48)),
        Amperes(f64_at(b, 56)),
        Amperes(f64_at(b, 64)),
        Amperes(f64_at(b, 72)),
    ]
}

fn read_charger(b: &[u8; 512]) -> Charger
    ensures { result ≡ charger_of b.now }
{
    Charger {
        max_power: Kw(f64_at(b, 16)),
        current: Amperes(f64_at(b, 24)),
        voltage: Volts(f64_at(b, 32)),
        caps: read_caps(b),
    }
}

// The chargers of the plan.
pub fn read_chargers(chargers: &mut FixedVec<Charger, 32>, plan: &CountedPlan)
    ensures { chargers.new.items ≡ chargers_of plan.now.file }
{
    chargers.clear();
    for c in 0..plan.file.charger_count() {
        chargers.push(read_charger(plan.file.block_of(Kind::Charger, c)));
    }
}

// Which connectors a charger's block names.
fn read_row(b: &[u8; 512]) -> [bool; 5]
    ensures { result ≡ row_of_charger b.now }
{
    connector_row(codes_at(b, 5), u8_at(b, 4))
}

// Which charger has which connector: a row for each charger, in the array that document 01 names.
pub fn read_connectors(plan: &CountedPlan) -> [[bool; 5]; 32]
    ensures { take (charger_count plan.now.file) result ≡ connector_rows plan.now.file }
{
    let mut rows = [[false; 5]; 32];
    for c in 0..plan.file.charger_count() {
        rows[c] = read_row(plan.file.block_of(Kind::Charger, c));
    }
    rows
}

// The place of the first profile with the id; past the last where none has it, since the model knows a profile that is missing by that place.
fn profile_index(plan: &CountedPlan, id: u32) -> usize
    ensures { result ≡ profile_index plan.now.file id }
{
    let file = &plan.file;
    let end = file.start_of(Kind::Charger);
    with_id(file.bytes, 1, end, id).unwrap_or(end) - 1
}

// The vehicle of a block, whose profile has the place.
#[tactic(auto, unfolding(crate::specs::Read::vehicle_of))]
fn read_vehicle(b: &[u8; 512], profile: usize) -> Vehicle
    ensures { result ≡ vehicle_of b.now profile }
{
    let own = connectors_of(codes_at(b, 9), u8_at(b, 8));
    let codes = own.codes;
    Vehicle {
        profile,
        codes,
        fleet: u16_at(b, 60) as u16,
        count: own.count,
        start: f64_at(b, 16),
        target: f64_at(b, 24),
        idle: Seconds(f64_at(b, 32)),
        arrival: u64_at(b, 40),
        wait: u64_at(b, 48),
        limit: u32_at(b, 56) as usize,
    }
}

// The queue places of the fleets.
fn read_queue_places(plan: &PlanFile) -> [u8; 64]
    ensures { result ≡ queue_places_of plan.now }
{
    *plan.bytes[24..].first_chunk().unwrap()
}

// The vehicles of the plan, with the queue places of their fleets.
pub fn read_vehicles(list: &mut VehicleList, plan: &CountedPlan)
    ensures vehicles { listed list.new ≡ vehicles_of plan.now.file }
    ensures places { list.new.queue_places ≡ queue_places_of plan.now.file }
{
    list.queue_places = read_queue_places(&plan.file);
    list.vehicles.clear();
    for v in 0..plan.file.vehicle_count() {
        let b = plan.file.block_of(Kind::Vehicle, v);
        let x = read_vehicle(b, profile_index(plan, u32_at(b, 4)));
        list.vehicles.push(x);
    }
}

// The site limit, if there is one.
#[tactic(auto, unfolding(crate::specs::Read::limit_of))]
pub fn read_limit(plan: &PlanFile) -> Limit
    ensures { result ≡ limit_of plan.now }
{
    match u8_at(plan.bytes, 12) {
        1 => Limit::AtMost(Kw(f64_at(plan.bytes, 16))),
        2 => Limit::Shared(watts(f64_at(plan.bytes, 16))),
        _ => Limit::Unlimited,
    }
}

// The site of a plan, in the place of what stood there: a site is too large to be handed on by value.
pub fn read_site(site: &mut Site, plan: &CountedPlan)
    ensures { plan_of site.new ≡ read_plan plan.now.file }
{
    read_vehicles(&mut site.vehicles, plan);
    read_chargers(&mut site.chargers, plan);
    site.rows = read_connectors(plan);
    site.batteries = read_batteries(plan);
    read_curves(&mut site.curves, &mut site.lens, plan);
    site.limit = read_limit(&plan.file);
}
