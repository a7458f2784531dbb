// Replays recorded calls of the book's reader. Standard input holds them, each as changes to the book that the one before left; standard
// output has for each the call's eleven numbers and digests of the header's numbers and of the sessions'. The record: a 32-bit number of calls;
// for each a 32-bit length of the book that is lent, and the changes. Of both numbers the low half counts.
#![tactic(auto)]

use book_reader::numbers::read_numbers;
use reading::read_full;
use recorded::{Record, answer_bytes, digest, replay_few};
use std::io;

// What a call is lent.
#[derive(Drop)]
struct Buffers {
    book: [u8; 7680],
    header: [u64; 4],
    sessions: [u64; 1024],
}

impl Buffers {
    // Makes the call that comes next in the record, and writes its answer.
    fn replay_call(&mut self, rt: &impl Print, record: &mut Record) -> io::Result<()> {
        let n = record.low_half().min(self.book.len());
        record.change(&mut self.book);
        let numbers = read_numbers(&self.book[..n], &mut self.header, &mut self.sessions);
        rt.write_all(&answer_bytes(numbers, digest(&self.header), digest(&self.sessions)))
    }
}

fn main(rt: HostRuntime) -> io::Result<()> {
    let mut record = [0u8; 65536];
    let n = read_full(&mut rt.stdin(), &mut record)?;
    // The numbers that a refused call leaves alone are sevens at first.
    let mut buffers = Buffers {
        book: [0; 7680],
        header: [7; 4],
        sessions: [7; 1024],
    };
    replay_few(&record[..n], |next| buffers.replay_call(&rt, next))
}
