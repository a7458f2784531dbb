// 15: the length of a book, and the checks of its blocks.
ghost use Rattle.std.specs.Prelude.{◌≡◌, ◌+◌, ◌*◌, ◌≤◌, length};
ghost use Rattle.plan.specs.Blocks.{passes as Blocks·passes, block};
ghost use Rattle.plan.specs.Search.{every};
ghost use Rattle.book_reader.specs.Reader.{damaged as Reader·damaged};

use plan::blocks::{passes, whole_blocks};

// A header and 64 sessions, five a block.
const MOST_BLOCKS: usize = 14;

// Each of the first n blocks has the check of its place.
fn all_pass(book: &[u8], n: usize) -> bool
    requires { (512 * n ≤ length book.now) × (n ≤ 14) }
    ensures { result ≡ every (λ k. Blocks·passes (k + 1) (block book.now k)) 0 n }
{
    for k in 0..n {
        if !passes(book, k) {
            return false;
        }
    }
    true
}

pub fn damaged(book: &[u8]) -> bool
    ensures { result ≡ Reader·damaged book.now }
{
    let n = book.len();
    if !whole_blocks(n, MOST_BLOCKS) {
        return true;
    }
    !all_pass(book, n / 512)
}
