// The exported call that reads a book back (request 5).
ghost use Rattle.std.specs.Prelude.{◌≡◌};
ghost use Rattle.book_reader.specs.Reader.{read_book, reading_numbers, header_after, sessions_after};
ghost use Rattle.book_reader.specs.Accepted.{OfWriter, ComesBack, Unique, OfRuns};

use book_reader::numbers::read_numbers;

// Reads a book; its numbers go to `numbers`, its header to `header`, and sixteen numbers of each session to `sessions`.
#[unsafe(no_mangle)]
pub extern "C" fn site_read_book(
    book: &[u8],
    header: &mut [u64; 4],
    sessions: &mut [u64; 1024],
    numbers: &mut [u64; 11],
)
    ensures answer { numbers.new ≡ reading_numbers (read_book book.now) }
    ensures header { header.new ≡ header_after (read_book book.now) header.old }
    ensures sessions { sessions.new ≡ sessions_after (read_book book.now) sessions.old }
    ensures writer { OfWriter book.now (read_book book.now) }
    ensures comes_back { ComesBack book.now (read_book book.now) }
    ensures unique { Unique book.now }
    ensures runs { OfRuns book.now (read_book book.now) }
{
    *numbers = read_numbers(book, header, sessions);
}
