// The reader: a book's header and sessions, or a refusal.
ghost use Rattle.std.specs.Prelude.{◌≡◌, ◌≤◌, length};
ghost use Rattle.book_reader.specs.Reader.{test_answer, read_book};
ghost use Rattle.book_reader.specs.Accepted.{OfWriter, ComesBack, Unique, OfRuns};
ghost use Rattle.book_reader.specs.Code.Read.{header_of, reading, Beside};

use crate::blocks::damaged;
use crate::fields::header_ok;
use crate::sessions::BookSessions;
use files::book_session::BookSession;
use fixed_vec::FixedVec;
use plan::answer::Refusal;
use plan::bytes::{u8_at, u16_at, u64_at};

// What a book's header says.
#[derive(Clone, Copy)]
pub struct BookHeader {
    pub count: usize,
    pub engine: u8,
    pub ended: u8,
    pub used: u64,
}

// A book that was read.
#[derive(Clone, Copy)]
pub struct ReadBook {
    pub header: BookHeader,
    pub sessions: FixedVec<BookSession, 64>,
}

// Tests a book: 15 over the whole of it, then 16.
pub fn test_book(book: &[u8]) -> Result<(), Refusal>
    ensures { result ≡ test_answer book.now }
{
    if damaged(book) {
        return Err(Refusal::BookDamaged);
    }
    if !header_ok(book) {
        return Err(Refusal::BookAgainstRules);
    }
    let sessions = BookSessions {
        book,
        count: u16_at(book, 4),
    };
    if sessions.sessions_ok() & sessions.rests_ok() {
        return Ok(());
    }
    Err(Refusal::BookAgainstRules)
}

// The header of a book that passed the test.
pub fn header_of(book: &[u8]) -> BookHeader
    requires { 512 ≤ length book.now }
    ensures { result ≡ header_of book.now }
{
    BookHeader {
        count: u16_at(book, 4),
        engine: u8_at(book, 6) as u8,
        ended: u8_at(book, 7) as u8,
        used: u64_at(book, 8),
    }
}

// Reads a book back. It is refused, or its sessions come back bit for bit.
pub fn read_book(book: &[u8]) -> Result<ReadBook, Refusal>
    ensures answer { reading result ≡ read_book book.now }
    ensures beside { Beside result }
    ensures writer { OfWriter book.now (reading result) }
    ensures comes_back { ComesBack book.now (reading result) }
    ensures unique { Unique book.now }
    ensures runs { OfRuns book.now (reading result) }
{
    test_book(book)?;
    let header = header_of(book);
    let sessions = BookSessions {
        book,
        count: header.count,
    };
    Ok(ReadBook {
        header,
        sessions: sessions.read(),
    })
}
