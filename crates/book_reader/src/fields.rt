// 16: the fields of a header and of a session, and the bytes that are zero.
ghost use Rattle.std.specs.Prelude.{◌≡◌, ◌*◌, ◌≤◌, ◌<◌, length};
ghost use Rattle.plan.specs.Search.{holds};
ghost use Rattle.book_reader.specs.SessionRules.{zero_unless, connector_ok, session_tests};
ghost use Rattle.book_reader.specs.Reader.{letters_ok, header_tests};

use files::book_session::{BookSession, charged, plugged};
use plan::bytes::{u8_at, u16_at};
use plan::fields::zeros;

fn letters_ok(b: &[u8]) -> bool
    requires { 512 ≤ length b.now }
    ensures { result ≡ letters_ok b.now }
{
    b.starts_with(b"BOOK")
}

// The header's fields and zero bytes, and as many blocks as its sessions take.
pub fn header_ok(book: &[u8]) -> bool
    requires { 512 ≤ length book.now }
    ensures { result ≡ holds (header_tests book.now) }
{
    let n = u16_at(book, 4);
    let blocks = book.len() / 512;
    letters_ok(book)
        & (n <= 64)
        & (u8_at(book, 6) <= 1)
        & (u8_at(book, 7) <= 1)
        & zeros(book, 16, 508)
        & (blocks == 1 + (n + 4) / 5)
}

fn zero_unless(there: bool, x: u64) -> bool
    ensures { result ≡ zero_unless there x }
{
    there | (x == 0)
}

fn connector_ok(there: bool, code: u8) -> bool
    ensures { result ≡ connector_ok there code }
{
    if there {
        return (1 <= code) & (code <= 5);
    }
    code == 0
}

// The outcome is one of the four, the fleet one of 64 or none, and what the outcome has not is zero.
pub fn session_ok(x: BookSession) -> bool
    ensures { result ≡ holds (session_tests x) }
{
    let there = plugged(x.outcome);
    let done = charged(x.outcome);
    (x.outcome <= 3)
        & (x.fleet <= 64)
        & zero_unless(there, x.charger_id as u64)
        & connector_ok(there, x.connector)
        & zero_unless(there, x.plugin)
        & zero_unless(done, x.unplug)
        & zero_unless(done, x.duration)
        & zero_unless(there, x.idle)
        & zero_unless(done, x.peak)
        & zero_unless(done, x.energy)
        & zero_unless(there, x.end)
}
