// Replays recorded calls for a practice day. Standard input holds them, each as changes to the plan that the one before left; standard output has for
// each the call's eleven numbers and a digest of the plan and of the output. The record: a 32-bit number of calls; for each four 32-bit numbers (seed,
// count, and the lengths of output and plan that are lent), and the changes of the plan. A length above a buffer's stands for the buffer's.
#![tactic(auto)]

ghost use Rattle.std.specs.Prelude.{◌≡◌, drop, take};
ghost use Rattle.recorded.specs.Replay.{answer_of};
ghost use Rattle.practice_vectors.specs.Calls.{seed_of, count_of, room_of, length_of, plan_after, after_call, numbers_of, out_after};

use plan::answer::check_numbers;
use practice::call::practice;
use reading::read_full;
use recorded::{Record, answer_bytes, digest, replay};
use std::io;

// What a call is asked, and the lengths of what it is lent.
#[derive(Clone, Copy)]
struct Call {
    seed: u32,
    count: u32,
    room: usize,
    plan: usize,
}

// The call that comes next in the record.
fn next_call(next: &mut Record) -> Call
    ensures seed { result.seed ≡ seed_of next.old.rest.now }
    ensures count { result.count ≡ count_of next.old.rest.now }
    ensures room { result.room ≡ room_of next.old.rest.now }
    ensures plan { result.plan ≡ length_of next.old.rest.now }
    ensures left { next.new.rest.now ≡ drop 16 next.old.rest.now }
{
    Call {
        seed: next.u32(),
        count: next.u32(),
        room: next.u32() as usize,
        plan: next.u32() as usize,
    }
}

// Makes the day that a call asks for, of the first bytes of plan and output, and gives the call's numbers.
fn make_day(plan: &[u8], c: Call, out: &mut [u8]) -> [u64; 11]
    ensures numbers { result ≡ numbers_of (take c.plan plan.now) c.seed c.count (take c.room out.old) }
    ensures out { out.new ≡ out_after (take c.plan plan.now) c.seed c.count c.room out.old }
{
    let plan = &plan[..c.plan.min(plan.len())];
    let room = c.room.min(out.len());
    check_numbers(practice(plan, c.seed, c.count, &mut out[..room]))
}

// What the calls are lent.
#[derive(Drop)]
struct Buffers {
    plan: [u8; 65536],
    out: [u8; 58368],
}

impl Buffers {
    // Makes the call that comes next in the record, and gives what is written of it.
    fn answer(&mut self, next: &mut Record) -> [u8; 104]
        ensures written { let rest = next.old.rest.now in
            let plan = take (length_of rest) self.new.plan in
            result ≡ answer_of (numbers_of plan (seed_of rest) (count_of rest) (take (room_of rest) self.old.out)) self.new.plan self.new.out }
        ensures plan { self.new.plan ≡ plan_after next.old.rest.now self.old.plan }
        ensures out { let rest = next.old.rest.now in
            self.new.out ≡ out_after (take (length_of rest) self.new.plan) (seed_of rest) (count_of rest) (room_of rest) self.old.out }
        ensures left { next.new.rest.now ≡ after_call next.old.rest.now }
    {
        let c = next_call(next);
        next.change(&mut self.plan);
        let numbers = make_day(&self.plan, c, &mut self.out);
        answer_bytes(numbers, digest(&self.plan), digest(&self.out))
    }
}

fn main(rt: HostRuntime) -> io::Result<()> {
    let mut record = [0u8; 65536];
    let n = read_full(&mut rt.stdin(), &mut record)?;
    let mut buffers = Buffers {
        plan: [0; 65536],
        out: [165; 58368],
    };
    replay(&record[..n], |next| rt.write_all(&buffers.answer(next)))
}
