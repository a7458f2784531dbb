// Totals of a book that was read, for planners.
ghost use Rattle.std.specs.Prelude.{◌≡◌, ◌≤◌, ◌<◌, length};
ghost use Rattle.book_reader.specs.Reader.{read_book};
ghost use Rattle.book_reader.specs.Totals.{energy_with, totals_of, totals_answer};
ghost use Rattle.book_reader.specs.Code.Sums.{added as Sums·added};

use crate::reader::read_book;
use curve::float::of_bits;
use curve::units::Kwh;
use files::book_session::{BookSession, charged};
use fixed_vec::FixedVec;
use plan::answer::Refusal;

// How many sessions are open, charged, reneged and balked, the energy of the charged ones, and the longest wait.
#[derive(Clone, Copy)]
pub struct BookTotals {
    pub still_open: u64,
    pub charged: u64,
    pub reneged: u64,
    pub balked: u64,
    pub energy: Kwh,
    pub longest_wait: u64,
}

// The energy so far with that of a session, if it is charged.
fn with_energy(sum: Kwh, x: &BookSession) -> Kwh
    ensures { result ≡ energy_with sum x.now }
{
    if charged(x.outcome) {
        return Kwh(sum.0 + of_bits(x.energy));
    }
    sum
}

impl BookTotals {
    // One session more.
    fn add(&mut self, x: &BookSession)
        requires few { ((self.old.still_open < 64) × (self.old.charged < 64)) × ((self.old.reneged < 64) × (self.old.balked < 64)) }
        ensures { self.new ≡ Sums·added self.old x.now }
    {
        self.still_open += u64::from(x.outcome == 0);
        self.charged += u64::from(x.outcome == 1);
        self.reneged += u64::from(x.outcome == 2);
        self.balked += u64::from(x.outcome == 3);
        self.energy = with_energy(self.energy, x);
        self.longest_wait = self.longest_wait.max(x.wait);
    }
}

// The totals of some sessions.
fn sum_up(all: &FixedVec<BookSession, 64>) -> BookTotals
    ensures { result ≡ totals_of all.now.items }
{
    let sessions = all.as_slice();
    let mut t = BookTotals {
        still_open: 0,
        charged: 0,
        reneged: 0,
        balked: 0,
        energy: Kwh(0.0),
        longest_wait: 0,
    };
    for x in sessions {
        t.add(x);
    }
    t
}

// Reads a book and sums it up.
pub fn totals(book: &[u8]) -> Result<BookTotals, Refusal>
    ensures { result ≡ totals_answer (read_book book.now) }
{
    let read = read_book(book)?;
    Ok(sum_up(&read.sessions))
}
