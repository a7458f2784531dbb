// The header of a dump: counts, the events handled, who is queued, and which chargers are busy.
ghost use Rattle.std.specs.Prelude.{◌≡◌, ◌++◌, ◌+◌, ◌≤◌, length, slice_index};
ghost use Rattle.std.proofs.lemmas.List.Edits.{sets};
ghost use Rattle.charger.specs.Lists.{All};
ghost use Rattle.charger.specs.Code.Queue.{waiting};
ghost use Rattle.engine.specs.Code.Simulation.{model};
ghost use Rattle.plan.specs.Bytes.{bytes};
ghost use Rattle.dump.specs.Dump.{queue_blocks, busy_blocks, table, length-place, header_block, state_header};
ghost use Rattle.dump.specs.Code.Dumping.{Near, NearCar};

use arrayvec::ArrayVec;
use charger::waiting_queue::WaitingQueue;
use engine::discrete::State;
use plan::blocks::seal;
use plan::bytes::{put, put_fields};
use plan::places::{Kind, PlanFile};
use plan::records::{Records, put_records};

// The counts of a dump, and the events handled.
#[derive(Clone, Copy)]
pub struct Counts {
    pub queued: u64,
    pub busy: u64,
    pub events: u64,
    pub sessions: u64,
    pub used: u64,
}

// The blocks of the queued vehicles.
fn queue_blocks(plan: &PlanFile, queue: &WaitingQueue) -> ArrayVec<u64, 64>
    requires { All Near (waiting queue.now) }
    ensures { result.items ≡ queue_blocks plan.now (waiting queue.now) }
{
    let mut blocks = ArrayVec::new();
    for v in queue.ids.iter() {
        blocks.push(plan.place_of(Kind::Vehicle, *v) as u64);
    }
    blocks
}

// The blocks of the busy chargers, each with its vehicle's, by who stands at each charger.
fn busy_blocks(plan: &PlanFile, places: &[Option<usize>]) -> ArrayVec<u64, 64>
    requires few { length places.now ≤ 32 }
    requires near { All NearCar places.now }
    ensures { result.items ≡ busy_blocks plan.now 0 places.now }
{
    let mut blocks = ArrayVec::new();
    for (c, who) in places.iter().enumerate() {
        if let Some(car) = who {
            blocks.push(plan.place_of(Kind::Charger, c) as u64);
            blocks.push(plan.place_of(Kind::Vehicle, *car) as u64);
        }
    }
    blocks
}

// 16-bit blocks, zero past the last.
#[derive(Clone, Copy)]
struct Table<'a> {
    blocks: &'a [u64],
}

// The block at a place, 0 past the last.
fn block_at(blocks: &[u64], i: usize) -> u64
    ensures { result ≡ slice_index blocks.now i }
{
    blocks.get(i).copied().unwrap_or(0)
}

impl Records<2> for Table<'_> {
    ghost slot = { λ x k. bytes 2 (slice_index x.blocks.now k) };

    ghost wide = { λ x. length-place x.blocks.now };

    fn put(&self, s: &mut [u8], at: usize, k: usize) {
        put(s, at, 2, block_at(self.blocks, k));
    }
}

// Stores who is queued and which chargers are busy, and zero bytes up to the block's check.
fn put_tables(s: &mut [u8], queue: &[u64], busy: &[u64])
    requires { 512 ≤ length s.old }
    ensures { s.new ≡ sets s.old 24 (table queue.now ++ (table busy.now ++ bytes 228 0)) }
{
    put_records(s, 24, &Table { blocks: queue }, 0, 64);
    put_records(s, 152, &Table { blocks: busy }, 0, 64);
    put(s, 280, 228, 0);
}

// Stores the header's block into s. It is the first block of the buffer that is lent: as an array of 512 bytes it would be lent out of that and
// written back.
fn put_header(s: &mut [u8], counts: Counts, queue: &[u64], busy: &[u64])
    requires { 512 ≤ length s.old }
    ensures { s.new ≡ sets s.old 0 (header_block counts.queued counts.busy counts.events counts.sessions counts.used queue.now busy.now) }
{
    let f: [(usize, u64); 10] = [
        (1, 68),
        (1, 85),
        (1, 77),
        (1, 80),
        (2, counts.queued),
        (2, counts.busy),
        (2, counts.events),
        (2, counts.sessions),
        (4, 0),
        (8, counts.used),
    ];
    put_fields(s, 0, &f);
    put_tables(s, queue, busy);
    seal(s, 0, 1);
}

// Stores the header of a state into s.
pub fn put_state(s: &mut [u8], plan: &PlanFile, state: &State)
    requires room { 512 ≤ length s.old }
    requires queue { All Near (waiting state.now.simulation.queue) }
    requires few { length state.now.places.items ≤ 32 }
    requires cars { All NearCar state.now.places.items }
    ensures { s.new ≡ sets s.old 0 (state_header plan.now (model state.now)) }
{
    let simulation = &state.simulation;
    let queue = queue_blocks(plan, &simulation.queue);
    let busy = busy_blocks(plan, state.places.as_slice());
    let counts = Counts {
        queued: queue.len() as u64,
        busy: busy.len() as u64 / 2,
        events: simulation.events.as_slice().len() as u64,
        sessions: simulation.sessions.len() as u64,
        used: simulation.events.handled() as u64,
    };
    put_header(s, counts, queue.as_slice(), busy.as_slice());
}
