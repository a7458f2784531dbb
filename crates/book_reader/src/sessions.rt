// The sessions of a book, read and tested.
ghost use Rattle.std.specs.Prelude.{◌≡◌, ◌+◌, ◌*◌, ◌/◌, ◌≤◌, ◌<◌, length, get_or, drop};
ghost use Rattle.plan.specs.Search.{every};
ghost use Rattle.files.specs.SessionBlocks.{session_of};
ghost use Rattle.files.specs.BookSession.{no_session};
ghost use Rattle.files.specs.Book.{book_offset, sessions_in};
ghost use Rattle.book_reader.specs.Reader.{session_ok, rest_ok};
ghost use Rattle.book_reader.specs.Code.Read.{Room};

use crate::fields::session_ok;
use files::book_session::BookSession;
use fixed_vec::FixedVec;
use plan::bytes::{u8_at, u16_at, u32_at, u64_at};
use plan::fields::zeros;

// The session that s begins with.
fn read_session(s: &[u8]) -> BookSession
    requires { 96 ≤ length s.now }
    ensures { result ≡ session_of s.now }
{
    BookSession {
        vehicle_id: u32_at(s, 0),
        profile_id: u32_at(s, 4),
        charger_id: u32_at(s, 8),
        connector: u8_at(s, 12) as u8,
        outcome: u8_at(s, 13) as u8,
        fleet: u16_at(s, 14) as u16,
        arrival: u64_at(s, 16),
        plugin: u64_at(s, 24),
        unplug: u64_at(s, 32),
        wait: u64_at(s, 40),
        duration: u64_at(s, 48),
        idle: u64_at(s, 56),
        peak: u64_at(s, 64),
        energy: u64_at(s, 72),
        start: u64_at(s, 80),
        end: u64_at(s, 88),
    }
}

// Where the session at the index k begins in a book.
fn offset_of(k: usize) -> usize
    requires { k < 64 }
    ensures { result ≡ book_offset k }
{
    512 + 512 * (k / 5) + 96 * (k % 5)
}

// A book with the blocks of its sessions, as many as its header says.
#[derive(Clone, Copy)]
pub struct BookSessions<'a> {
    pub book: &'a [u8],
    pub count: usize,
    ghost room: { Room book.now count },
}

impl BookSessions<'_> {
    // The session at the index k. Its callers take its fields at once: without the hint it goes through memory.
    #[inline(always)]
    fn session_in(self, k: usize) -> BookSession
        requires { k < self.count }
        ensures { result ≡ session_of (drop (book_offset k) self.entry.book.now) }
    {
        let at = offset_of(k);
        read_session(&self.book[at..])
    }

    // The session at the index k; past the last there is none.
    pub fn session_at(self, k: usize) -> BookSession
        ensures { result ≡ get_or (sessions_in self.entry.book.now) k no_session }
    {
        if self.count <= k {
            return BookSession::default();
        }
        self.session_in(k)
    }

    // Each session follows the rules.
    pub fn sessions_ok(self) -> bool
        ensures { result ≡ every (session_ok self.entry.book.now) 0 self.entry.count }
    {
        for k in 0..self.count {
            if !session_ok(self.session_in(k)) {
                return false;
            }
        }
        true
    }

    // What follows the last session of each block is zero.
    pub fn rests_ok(self) -> bool
        ensures { result ≡ every (rest_ok self.entry.book.now) 0 ((self.entry.count + 4) / 5) }
    {
        let blocks = (self.count + 4) / 5;
        for j in 0..blocks {
            if !self.rest_ok(j) {
                return false;
            }
        }
        true
    }

    // Bytes behind the last session of the j-th block of sessions, up to its check.
    fn rest_ok(self, j: usize) -> bool
        requires { 5 * j < self.count }
        ensures { result ≡ rest_ok self.entry.book.now j }
    {
        let there = (self.count - 5 * j).min(5);
        let start = 512 + 512 * j;
        zeros(self.book, start + 96 * there, start + 508)
    }

    // Reads all sessions.
    pub fn read(self) -> FixedVec<BookSession, 64>
        ensures { result.items ≡ sessions_in self.entry.book.now }
    {
        let mut all = FixedVec::new();
        for k in 0..self.count {
            all.push(self.session_in(k));
        }
        all
    }
}
