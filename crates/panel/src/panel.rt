// A panel beside a run by steps: rounds, and between them reads and writes of one byte.
ghost use Rattle.std.specs.Prelude.{◌≡◌, ◌+◌, ◌<◌, true, ltb, length, get_or};
ghost use Rattle.charger.specs.Lists.{tick};
ghost use Rattle.files.specs.Read.{read_plan};
ghost use Rattle.plan.specs.Bytes.{bytes};
ghost use Rattle.panel.specs.Image.{status_byte, vehicle_id, energy_bits, image};
ghost use Rattle.panel.specs.Panel.{at_charger, start, rounds, read, write_answer, write, line_answer};
ghost use Rattle.panel.specs.Code.Seen.{sessions, the_plan, model, Watches, Gives, Keeps};

use crate::registers::{Bits, Cabinet, UNUSED};
use curve::float::to_bits;
use engine::rising_site::RisingSite;
use engine::session::Session;
use engine::timestep;
use engine::timestep::StepRun;
use files::book_session::vehicle_number;
use files::counted::CountedPlan;
use files::loaded::LoadedPlan;
use plan::bytes::put;
use plan::places::PlanFile;
use power::charger_state::{ChargerState, Status};

// Why a byte is not read or written, by the paper's number: its address is outside the chargers' images; it cannot be written.
#[derive(Clone, Copy, Debug, PartialEq, Eq)]
pub enum AccessRefusal {
    Outside = 20,
    ReadOnly,
}

// A run by steps that is held between rounds, and what a panel board holds for each cabinet.
#[derive(Drop)]
pub struct Panel<'a> {
    pub loaded: LoadedPlan<'a>,
    pub run: StepRun,
    pub cabinets: [Cabinet; 32],
}

// Bit 0 occupied, 1 charging, 2 idle.
fn status_byte(status: Status) -> u8
    ensures { result ≡ status_byte status }
{
    match status {
        Status::Free => 0,
        Status::Charging => 3,
        Status::Idle => 5,
        Status::Finished => 1,
    }
}

// The byte at k of a number.
fn byte_at(v: u64, k: usize) -> u8
    requires { k < 8 }
    ensures { result ≡ get_or (bytes 8 v) k 0 }
{
    let mut b = [0; 8];
    put(&mut b, 0, 8, v);
    b[k]
}

// The bits of a car's energy so far; 0 at a free charger.
#[tactic(auto, unfolding(crate::specs::Image::energy_bits))]
fn energy_bits(s: &ChargerState) -> u64
    ensures { result ≡ energy_bits s.now }
{
    if s.status.is_free() {
        return 0;
    }
    to_bits(s.energy.0)
}

impl<'a> Panel<'a> {
    // A panel beside the run's start.
    pub fn start(loaded: LoadedPlan<'a>) -> Self
        ensures model { model result ≡ start (read_plan loaded.entry.plan.now) }
        ensures watches { Watches result }
        ensures loaded { result.loaded ≡ loaded.entry }
    {
        let rising = RisingSite { site: loaded.site };
        Panel {
            loaded,
            run: timestep::run(rising, 0),
            cabinets: [UNUSED; 32],
        }
    }

    // Up to `count` rounds of the run.
    pub fn rounds(&mut self, count: u32)
        requires watches { Watches self.old }
        requires times { self.old.run.time + count < 18446744073709551616 }
        ensures { Keeps self.old (rounds (the_plan self.old) count (model self.old)) self.new }
    {
        let rising = RisingSite {
            site: self.loaded.site,
        };
        timestep::rounds(rising, &mut self.run, u64::from(count));
    }

    fn sessions(&self) -> &[Session]
        ensures { result.now ≡ sessions self.now }
    {
        self.run.state.simulation.sessions.as_slice()
    }

    // The charger is one of the plan.
    fn is_there(&self, c: usize) -> bool
        ensures { result ≡ ltb c (length (the_plan self.now).chargers) }
    {
        c < self.loaded.site.chargers.len()
    }

    // The id of the vehicle at the charger; 0 at a free one.
    fn vehicle_id(&self, s: &ChargerState) -> u32
        ensures { result ≡ vehicle_id self.now.loaded.plan.now s.now }
    {
        if s.status.is_free() {
            return 0;
        }
        let plan = CountedPlan {
            file: PlanFile {
                bytes: self.loaded.plan,
            },
        };
        vehicle_number(&plan, usize::from(s.vehicle), 0)
    }

    // The byte at k of a cabinet's image.
    fn image_byte(&self, c: usize, k: usize) -> u8
        requires watches { Watches self.now }
        requires there { ltb c (length (the_plan self.now).chargers) ≡ true }
        requires offset { k < 16 }
        ensures { result ≡ get_or (image self.now.loaded.plan.now (at_charger (model self.now).run c) ((model self.now).cabinets c)) k 0 }
    {
        let s = &self.run.state.bank[c];
        match k {
            0 => status_byte(s.status),
            1 => self.cabinets[c].pending(c, self.sessions()).byte(),
            2 => self.cabinets[c].enable.byte(),
            3 => 0,
            4..=7 => byte_at(u64::from(self.vehicle_id(s)), k - 4),
            _ => byte_at(energy_bits(s), k - 8),
        }
    }

    // The byte at an address.
    pub fn read(&self, address: u32) -> Result<u8, AccessRefusal>
        requires { Watches self.now }
        ensures { Gives (λ byte. byte) (read (the_plan self.now) self.now.loaded.plan.now address (model self.now)) result }
    {
        let c = (address / 16) as usize;
        if !self.is_there(c) {
            return Err(AccessRefusal::Outside);
        }
        Ok(self.image_byte(c, (address % 16) as usize))
    }

    // Writes a byte to an address. A refused write changes nothing.
    pub fn write(&mut self, address: u32, byte: u8) -> Result<(), AccessRefusal>
        requires { Watches self.old }
        ensures answer { Gives (λ u. 0) (write_answer (the_plan self.old) address) result }
        ensures left { Keeps self.old (write (the_plan self.old) address byte (model self.old)) self.new }
    {
        let c = (address / 16) as usize;
        if !self.is_there(c) {
            return Err(AccessRefusal::Outside);
        }
        let sessions = self.run.state.simulation.sessions.as_slice();
        let cabinet = &mut self.cabinets[c];
        match address % 16 {
            1 => cabinet.clear(Bits::of_byte(byte), c, sessions),
            2 => cabinet.enable = Bits::of_byte(byte),
            _ => return Err(AccessRefusal::ReadOnly),
        }
        Ok(())
    }

    // Whether a cabinet's line is raised, by its charger's place.
    pub fn line(&self, c: u32) -> Result<bool, AccessRefusal>
        requires { Watches self.now }
        ensures { Gives tick (line_answer (the_plan self.now) c (model self.now)) result }
    {
        let c = c as usize;
        if !self.is_there(c) {
            return Err(AccessRefusal::Outside);
        }
        Ok(self.cabinets[c].line(c, self.sessions()))
    }
}
