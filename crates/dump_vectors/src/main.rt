// Replays recorded calls of dump, continue and late booking. Standard input holds them, each as changes to the buffers of plan, dump and car that the
// one before left; standard output has for each the call's eleven numbers and a digest of each buffer that a call can write to. The record: a 32-bit
// number of calls; for each a byte, 0 for dump, 1 for continue and 2 for late booking, five 32-bit numbers (engine, or the length of the car that is lent;
// allowance or further events; the lengths of book, or new dump, of dump and of plan that are lent), and the changes of plan, of dump and of car. Of the
// number of calls and of these three lengths the low half counts.
#![tactic(auto)]

use dump::call;
use dump::resume::resume;
use late_booking::late::book_late;
use plan::answer::{check_numbers, run_numbers};
use plan::bytes::put;
use reading::read_full;
use recorded::{Record, answer_bytes, digest, replay_few};
use std::io;

// Which call is made. A `match` tells the three, which are lent different buffers.
#[derive(Clone, Copy)]
enum Kind {
    Dump,
    Continue,
    BookLate,
}

// Of a call: which it is, its numbers, and the lengths of what is lent.
#[derive(Clone, Copy)]
struct Call {
    kind: Kind,
    engine: u32,
    units: u32,
    book: usize,
    dump: usize,
    plan: usize,
}

// By the record's byte.
impl From<usize> for Kind {
    fn from(byte: usize) -> Self {
        match byte {
            0 => Kind::Dump,
            2 => Kind::BookLate,
            _ => Kind::Continue,
        }
    }
}

// The call that comes next in the record.
fn next_call(record: &mut Record) -> Call {
    Call {
        kind: Kind::from(record.byte()),
        engine: record.u32(),
        units: record.u32(),
        book: record.low_half(),
        dump: record.low_half(),
        plan: record.low_half(),
    }
}

// What the calls are lent.
#[derive(Drop)]
struct Buffers {
    plan: [u8; 65536],
    book: [u8; 7680],
    dump: [u8; 16640],
    car: [u8; 1024],
    new: [u8; 16640],
}

impl Buffers {
    // The numbers of a late booking.
    fn book_late(&mut self, c: Call) -> [u64; 11] {
        let plan = &self.plan[..c.plan.min(self.plan.len())];
        let dump = &self.dump[..c.dump.min(self.dump.len())];
        let car = &self.car[..(c.engine as usize).min(self.car.len())];
        let new = &mut self.new[..];
        let room = c.book.min(new.len());
        check_numbers(book_late(plan, dump, car, &mut new[..room]))
    }

    // The numbers of a run that is dumped.
    fn dump(&mut self, c: Call) -> [u64; 11] {
        let plan = &self.plan[..c.plan.min(self.plan.len())];
        let book = &mut self.book[..];
        let dump = &mut self.dump[..];
        let room = c.book.min(book.len());
        let d = c.dump.min(dump.len());
        let ran = call::dump(plan, c.engine, c.units, &mut book[..room], &mut dump[..d]);
        run_numbers(ran)
    }

    // The numbers of a run that is continued.
    fn resume(&mut self, c: Call) -> [u64; 11] {
        let plan = &self.plan[..c.plan.min(self.plan.len())];
        let book = &mut self.book[..];
        let dump = &self.dump[..c.dump.min(self.dump.len())];
        let room = c.book.min(book.len());
        run_numbers(resume(plan, dump, c.units, &mut book[..room]))
    }

    // Makes the call that comes next in the record, and writes its answer.
    fn replay_call(&mut self, rt: &impl Print, record: &mut Record) -> io::Result<()> {
        let c = next_call(record);
        record.change(&mut self.plan);
        record.change(&mut self.dump);
        record.change(&mut self.car);
        let numbers = match c.kind {
            Kind::Dump => self.dump(c),
            Kind::Continue => self.resume(c),
            Kind::BookLate => self.book_late(c),
        };
        rt.write_all(&answer_bytes(numbers, digest(&self.book), digest(&self.dump)))?;
        let mut last = [0u8; 8];
        put(&mut last, 0, 8, digest(&self.new));
        rt.write_all(&last)
    }
}

fn main(rt: HostRuntime) -> io::Result<()> {
    let mut record = [0u8; 65536];
    let n = read_full(&mut rt.stdin(), &mut record)?;
    let mut buffers = Buffers {
        plan: [0; 65536],
        book: [0; 7680],
        dump: [0; 16640],
        car: [0; 1024],
        new: [0; 16640],
    };
    replay_few(&record[..n], |next| buffers.replay_call(&rt, next))
}
