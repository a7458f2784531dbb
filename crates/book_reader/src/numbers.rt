// A book that was read, in numbers: four of its header, sixteen of each session, and the eleven of every call.
ghost use Rattle.std.specs.Prelude.{◌≡◌, [], ◌∷◌, ◌+◌, ◌≤◌, length};
ghost use Rattle.std.proofs.lemmas.List.Edits.{sets};
ghost use Rattle.plan.specs.Bytes.{pieces};
ghost use Rattle.files.specs.Book.{sessions_in};
ghost use Rattle.book_reader.specs.Reader.{read_book, reading_numbers, header_after, session_numbers, numbers_at, sessions_after};
ghost use Rattle.book_reader.specs.Accepted.{OfWriter, ComesBack, Unique, OfRuns};

use crate::reader::{BookHeader, header_of, test_book};
use crate::sessions::BookSessions;
use files::book_session::BookSession;
use plan::answer::check_numbers;

// A session's sixteen numbers.
fn session_numbers(x: BookSession) -> [u64; 16]
    ensures { result ≡ session_numbers x }
{
    [
        x.vehicle_id as u64,
        x.profile_id as u64,
        x.charger_id as u64,
        x.connector as u64,
        x.outcome as u64,
        x.fleet as u64,
        x.arrival,
        x.plugin,
        x.unplug,
        x.wait,
        x.duration,
        x.idle,
        x.peak,
        x.energy,
        x.start,
        x.end,
    ]
}

// Stores sixteen numbers into out from at. One by one: a copy of the whole row makes the reading of one session half as slow again.
fn put_numbers(out: &mut [u64], at: usize, row: [u64; 16])
    requires { at + 16 ≤ length out.old }
    ensures { out.new ≡ sets out.old at row }
{
    for i in 0..16 {
        out[at + i] = row[i];
    }
}

// Stores the numbers of a book's sessions into out, and zeros past them.
fn put_sessions(out: &mut [u64; 1024], sessions: BookSessions<'_>)
    ensures { out.new ≡ pieces (numbers_at (sessions_in sessions.entry.book.now)) 0 64 }
{
    for k in 0..64 {
        put_numbers(out, 16 * k, session_numbers(sessions.session_at(k)));
    }
}

fn header_numbers(h: BookHeader) -> [u64; 4]
    ensures { result ≡ h.count ∷ h.engine ∷ h.ended ∷ h.used ∷ [] }
{
    [h.count as u64, h.engine as u64, h.ended as u64, h.used]
}

// Reads a book, stores its header and sessions, and gives the eleven numbers. A refused call stores nothing.
pub fn read_numbers(book: &[u8], header: &mut [u64; 4], sessions: &mut [u64; 1024]) -> [u64; 11]
    ensures answer { result ≡ reading_numbers (read_book book.now) }
    ensures header { header.new ≡ header_after (read_book book.now) header.old }
    ensures sessions { sessions.new ≡ sessions_after (read_book book.now) sessions.old }
    ensures writer { OfWriter book.now (read_book book.now) }
    ensures comes_back { ComesBack book.now (read_book book.now) }
    ensures unique { Unique book.now }
    ensures runs { OfRuns book.now (read_book book.now) }
{
    let answer = test_book(book);
    let numbers = check_numbers(answer);
    match answer {
        Err(_) => numbers,
        Ok(()) => {
            let h = header_of(book);
            let read = BookSessions {
                book,
                count: h.count,
            };
            put_sessions(sessions, read);
            *header = header_numbers(h);
            numbers
        }
    }
}
