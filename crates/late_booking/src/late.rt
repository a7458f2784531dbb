// A car booked late: the new dump is that of the plan with the car last, after the same handled count. The calls take plan and
// dump one by one, as C lends them.
ghost use Rattle.std.specs.Prelude.{◌≡◌, ◌+◌, ◌≤◌, ◌<◌, length};
ghost use Rattle.charger.specs.Lists.{All};
ghost use Rattle.charger.specs.Code.Vehicles.{listed};
ghost use Rattle.engine.specs.Code.Simulation.{plan_of, pending, model, InTime};
ghost use Rattle.engine.specs.Discrete.{run};
ghost use Rattle.files.specs.Check.{check_plan};
ghost use Rattle.plan.specs.Places.{vehicle_count};
ghost use Rattle.dump.specs.Dump.{handled_in};
ghost use Rattle.late_booking.specs.LongerPlan.{longer};
ghost use Rattle.late_booking.specs.LateCar.{first_time, is_later};
ghost use Rattle.late_booking.specs.Call.{booking_answer, late_answer, dumped_after};
ghost use Rattle.late_booking.specs.Stands.{RunStands, InOrder, OneMoreToArrive, WholeDump, HeaderStands, SessionsStand, EventsJoined, PlannedInFull};

use crate::check_dump::check_dump;
use crate::longer::put_longer;
use dump::resume::is_dump;
use engine::discrete;
use engine::discrete::State;
use engine::events::EventQueue;
use engine::site::Site;
use files::check::read_admitted;
use files::loaded::LoadedPlan;
use plan::answer::{Refusal, Rule};
use plan::bytes::u64_at;
use plan::places::PlanFile;
use plan::plan::check_blocks;

// The time of the event that pops first; 0 where there is none, as the rules say it.
fn first_time(events: &EventQueue) -> u64
    ensures { result ≡ first_time (pending events.now) }
{
    match events.first() {
        Some(event) => event.time,
        None => 0,
    }
}

// A run that has reached a handled count, and whether an arrival lies after the last event handled.
#[derive(Drop)]
struct Reached {
    state: State,
    later: bool,
}

// The run of a plan that was read, up to its n-th event.
fn reach(site: &Site, n: u64, arrival: u64) -> Reached
    requires times { All InTime (listed site.now.vehicles) }
    ensures same { model result.state ≡ run (plan_of site.now) n }
    ensures later { result.later ≡ is_later (plan_of site.now) n arrival }
{
    if n == 0 {
        return Reached {
            state: discrete::run(site, 0),
            later: true,
        };
    }
    let mut state = discrete::run(site, n - 1);
    let later = first_time(&state.simulation.events) < arrival;
    discrete::go_on(site, &mut state, 1);
    Reached { state, later }
}

// Makes the longer plan, checks it, and dumps it after n events if it is fine.
fn dump_longer(plan: &PlanFile, car: &[u8; 512], n: u64, new: &mut [u8]) -> Result<(), Refusal>
    requires size { length plan.now + 512 ≤ 57856 }
    requires vehicles { vehicle_count plan.now < 64 }
    requires room { 16384 ≤ length new.old }
    ensures answer { result ≡ check_plan (longer plan.now car.now) }
    ensures dump { new.new ≡ dumped_after (longer plan.now car.now) n result new.old }
{
    let mut memory = [0u8; 57856];
    let length = put_longer(&mut memory, plan, car);
    check_dump(&memory[..length], n, new)
}

// Books a car into a plan that was read.
fn book_site(
    read: LoadedPlan<'_>,
    dump: &[u8],
    car: &[u8; 512],
    new: &mut [u8],
) -> Result<(), Refusal>
    requires { 16384 ≤ length new.old }
    ensures answer { result ≡ booking_answer read.entry.plan.now dump.now car.now }
    ensures dump { new.new ≡ dumped_after (longer read.entry.plan.now car.now) (handled_in dump.now) result new.old }
{
    let LoadedPlan { plan, site } = read;
    if dump.len() < 512 {
        return Err(Refusal::OtherDump);
    }
    let handled = u64_at(dump, 16);
    let reached = reach(site, handled, u64_at(car, 40));
    if !is_dump(dump, plan, site, &reached.state) {
        return Err(Refusal::OtherDump);
    }
    if 64 <= site.vehicles.vehicles.len() {
        return Err(Refusal::VehiclesFull);
    }
    if !reached.later {
        return Err(Refusal::NotLater);
    }
    let file = PlanFile { bytes: plan };
    dump_longer(&file, car, handled, new)
}

// Books a car into a plan whose run by events was dumped, and writes the new dump. A refused call changes nothing.
pub fn book_late(plan: &[u8], dump: &[u8], car: &[u8], new: &mut [u8]) -> Result<(), Refusal>
    ensures answer { result ≡ late_answer plan.now dump.now car.now (length new.old) }
    ensures dump { new.new ≡ dumped_after (longer plan.now car.now) (handled_in dump.now) result new.old }
    ensures stands { RunStands plan.now dump.now car.now result }
    ensures order { InOrder plan.now dump.now car.now result }
    ensures counts { OneMoreToArrive plan.now dump.now car.now result }
    ensures whole { WholeDump plan.now dump.now car.now new.new result }
    ensures header { HeaderStands plan.now dump.now car.now new.new result }
    ensures sessions { SessionsStand plan.now dump.now car.now new.new result }
    ensures events { EventsJoined plan.now dump.now car.now new.new result }
    ensures full { PlannedInFull plan.now dump.now car.now new.new result }
{
    if new.len() < 16384 {
        return Err(Refusal::DumpUnder);
    }
    let Ok(block) = <&[u8; 512]>::try_from(car) else {
        return Err(Refusal::Broken(Rule::Length, 0));
    };
    check_blocks(plan)?;
    let mut site = Site::empty();
    read_admitted(plan, &mut site)?;
    let read = LoadedPlan { plan, site: &site };
    book_site(read, dump, block, new)
}
