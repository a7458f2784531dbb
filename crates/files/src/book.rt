// The book: a header block and then five sessions a block, in the order pushed.
ghost use Rattle.std.specs.Prelude.{◌≡◌, ◌≤◌, length};
ghost use Rattle.std.proofs.lemmas.List.Edits.{sets};
ghost use Rattle.files.specs.Code.Writing.{Writable};
ghost use Rattle.files.specs.BookSession.{book_sessions};
ghost use Rattle.files.specs.Book.{header_block, book_bytes, written, ReadBack};

use crate::book_session::{BookSession, entries_of_plan};
use crate::counted::CountedPlan;
use crate::session_blocks::put_session_blocks;
use arrayvec::ArrayVec;
use engine::session::Session;
use engine::site::Site;
use plan::blocks::seal;
use plan::bytes::put_fields;
use plan::places::PlanFile;

// Stores the header's block into s, from its numbers one by one: a struct of them would be made here alone. It is the first block of the
// buffer that is lent: as an array of 512 bytes it would be lent out of that and written back.
fn put_header(s: &mut [u8], count: u64, engine: u8, ended: u8, used: u64)
    requires { 512 ≤ length s.old }
    ensures { s.new ≡ sets s.old 0 (header_block count engine ended used) }
{
    let f: [(usize, u64); 9] = [
        (1, 66),
        (1, 79),
        (1, 79),
        (1, 75),
        (2, count),
        (1, u64::from(engine)),
        (1, u64::from(ended)),
        (8, used),
        (492, 0),
    ];
    put_fields(s, 0, &f);
    seal(s, 0, 1);
}

// Stores the book of some sessions; the bytes past its last block stay. C lends a buffer of any length from 7,168 bytes on, so a clause asks for the
// room and no array type.
fn put_book(book: &mut [u8], all: &ArrayVec<BookSession, 64>, engine: u8, ended: u8, used: u64)
    requires { 7168 ≤ length book.old }
    ensures { book.new ≡ written (book_bytes engine ended used all.now.items) book.old }
{
    let sessions = all.as_slice();
    put_header(book, sessions.len() as u64, engine, ended, used);
    put_session_blocks(book, 512, 2, sessions);
}

// Writes the book of a run; the bytes past its last block stay.
pub fn write_book(
    book: &mut [u8],
    plan: &[u8],
    site: &Site,
    sessions: &[Session],
    engine: u8,
    ended: u8,
    used: u64,
)
    requires { Writable plan.now site.now sessions.now book.old }
    ensures book { book.new ≡ written (book_bytes engine ended used (book_sessions plan.now sessions.now)) book.old }
    ensures back { ReadBack engine ended used (book_sessions plan.now sessions.now) book.new }
{
    let plan = CountedPlan {
        file: PlanFile { bytes: plan },
    };
    let all = entries_of_plan(&plan, site, sessions);
    put_book(book, &all, engine, ended, used);
}
