// The dump of a state: header, pending events, sessions as in a book.
ghost use Rattle.std.specs.Prelude.{◌≡◌, ◌≤◌, length};
ghost use Rattle.engine.specs.Code.Simulation.{model};
ghost use Rattle.files.specs.Book.{written};
ghost use Rattle.dump.specs.Dump.{dump_bytes};
ghost use Rattle.dump.specs.Code.Dumping.{Dumpable};

use crate::event_blocks::put_event_blocks;
use crate::header::put_state;
use engine::discrete::State;
use engine::site::Site;
use files::book_session::entries_of_plan;
use files::counted::CountedPlan;
use files::session_blocks::put_session_blocks;
use plan::places::PlanFile;

// Lays the dump of a state into s, and gives its length; the bytes past it stay. C lends a buffer of any length from 16,384 bytes on, so a clause asks
// for the room and no array type.
pub fn put_dump(s: &mut [u8], plan: &[u8], site: &Site, state: &State) -> usize
    requires state { Dumpable plan.now site.now state.now }
    requires room { 16384 ≤ length s.old }
    ensures bytes { s.new ≡ written (dump_bytes plan.now (model state.now)) s.old }
    ensures length { result ≡ length (dump_bytes plan.now (model state.now)) }
    ensures within { result ≤ length s.new }
{
    let events = state.simulation.events.as_slice();
    let plan = CountedPlan {
        file: PlanFile { bytes: plan },
    };
    let all = entries_of_plan(&plan, site, state.simulation.sessions.as_slice());
    let sessions = all.as_slice();
    let blocks = (events.len() + 30) / 31;
    put_state(s, &plan.file, state);
    put_event_blocks(s, 512, 2, &plan.file, events);
    put_session_blocks(s, 512 + 512 * blocks, 2 + blocks as u32, sessions);
    512 + 512 * blocks + 512 * ((sessions.len() + 4) / 5)
}
