// Blocks of sessions, five a block, from any place of a file on.
ghost use Rattle.std.specs.Prelude.{◌≡◌, ◌+◌, ◌*◌, ◌/◌, ◌≤◌, length};
ghost use Rattle.std.proofs.lemmas.List.Edits.{sets};
ghost use Rattle.files.specs.SessionBlocks.{session_bytes, slot, length-slot, session_blocks};

use crate::book_session::BookSession;
use plan::bytes::{put, put_fields};
use plan::records::{Records, put_blocks};

// Sessions as a file holds them; zero bytes stand past the last.
#[derive(Clone, Copy)]
struct Sessions<'a> {
    list: &'a [BookSession],
}

// Stores the 96 bytes of a session into s from at.
#[tactic(auto, unfolding(crate::specs::SessionBlocks::session_bytes, plan::specs::Bytes::fields, plan::specs::Bytes::bytes))]
fn put_session(s: &mut [u8], at: usize, x: &BookSession)
    requires { at + 96 ≤ length s.old }
    ensures { s.new ≡ sets s.old at (session_bytes x.now) }
{
    let f: [(usize, u64); 16] = [
        (4, x.vehicle_id as u64),
        (4, x.profile_id as u64),
        (4, x.charger_id as u64),
        (1, x.connector as u64),
        (1, x.outcome as u64),
        (2, x.fleet as u64),
        (8, x.arrival),
        (8, x.plugin),
        (8, x.unplug),
        (8, x.wait),
        (8, x.duration),
        (8, x.idle),
        (8, x.peak),
        (8, x.energy),
        (8, x.start),
        (8, x.end),
    ];
    put_fields(s, at, &f);
}

impl Records<96> for Sessions<'_> {
    ghost slot = { λ x. slot x.list.now };

    ghost wide = { λ x. length-slot x.list.now };

    fn put(&self, s: &mut [u8], at: usize, k: usize) {
        match self.list.get(k) {
            Some(x) => put_session(s, at, x),
            None => put(s, at, 96, 0),
        }
    }
}

// Stores the blocks of some sessions into s from at; the first of them is the place-th of its file. A slice carries no bound, so a clause
// asks that they are few.
pub fn put_session_blocks(s: &mut [u8], at: usize, place: u32, sessions: &[BookSession])
    requires few { length sessions.now ≤ 64 }
    requires place { place ≤ 65536 }
    requires room { at + 512 * ((length sessions.now + 4) / 5) ≤ length s.old }
    ensures { s.new ≡ sets s.old at (session_blocks place sessions.now) }
{
    let blocks = (sessions.len() + 4) / 5;
    put_blocks(s, at, place, &Sessions { list: sessions }, 5, blocks);
}
