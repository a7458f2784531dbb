// Replays recorded calls for a panel. Standard input holds them, each as changes to the plan that the one before left; standard output has for each
// the call's eleven numbers and a digest of the plan and of the output. The record: a 32-bit number of calls; for each three 32-bit numbers (how many
// operations the script has, and the lengths of output and plan that are lent), the changes of the plan, and the operations, of 64 bits each. A length
// above a buffer's stands for the buffer's, and more than 1,024 operations for 1,024.
#![tactic(auto)]

ghost use Rattle.std.specs.Prelude.{◌≡◌, ◌≤◌, ◌*◌, drop, take};
ghost use Rattle.recorded.specs.Replay.{u64s, answer_of};
ghost use Rattle.panel_vectors.specs.Calls.{count_of, room_of, length_of, plan_after, script_of, after_call, numbers_of, out_after};

use panel::call::panel;
use plan::answer::check_numbers;
use reading::read_full;
use recorded::{Record, answer_bytes, digest, replay};
use std::io;

// Of a call: how many operations its script has, and the lengths of what else it is lent.
#[derive(Clone, Copy)]
struct Call {
    count: usize,
    room: usize,
    plan: usize,
}

// The call that comes next in the record.
fn next_call(next: &mut Record) -> Call
    ensures count { result.count ≡ count_of next.old.rest.now }
    ensures room { result.room ≡ room_of next.old.rest.now }
    ensures plan { result.plan ≡ length_of next.old.rest.now }
    ensures left { next.new.rest.now ≡ drop 12 next.old.rest.now }
{
    Call {
        count: (next.u32() as usize).min(1024),
        room: next.u32() as usize,
        plan: next.u32() as usize,
    }
}

// Plays the script that comes next on a panel beside the first bytes of the plan, into the first of the output, and gives the call's numbers.
fn play(next: &mut Record, plan: &[u8], c: Call, out: &mut [u8]) -> [u64; 11]
    requires { c.count ≤ 1024 }
    ensures numbers { result ≡ numbers_of (take c.plan plan.now) (u64s c.count next.old.rest.now) (take c.room out.old) }
    ensures out { out.new ≡ out_after (take c.plan plan.now) (u64s c.count next.old.rest.now) c.room out.old }
    ensures left { next.new.rest.now ≡ drop (8 * c.count) next.old.rest.now }
{
    let mut operations = [0; 1024];
    let script = &mut operations[..c.count];
    next.u64s(script);
    let plan = &plan[..c.plan.min(plan.len())];
    let room = c.room.min(out.len());
    check_numbers(panel(plan, script, &mut out[..room]))
}

// What the calls are lent.
#[derive(Drop)]
struct Buffers {
    plan: [u8; 65536],
    out: [u8; 2304],
}

impl Buffers {
    // Makes the call that comes next in the record, and gives what is written of it.
    fn answer(&mut self, next: &mut Record) -> [u8; 104]
        ensures written { let rest = next.old.rest.now in
            let plan = take (length_of rest) self.new.plan in
            result ≡ answer_of (numbers_of plan (script_of rest) (take (room_of rest) self.old.out)) self.new.plan self.new.out }
        ensures plan { self.new.plan ≡ plan_after next.old.rest.now self.old.plan }
        ensures out { let rest = next.old.rest.now in
            self.new.out ≡ out_after (take (length_of rest) self.new.plan) (script_of rest) (room_of rest) self.old.out }
        ensures left { next.new.rest.now ≡ after_call next.old.rest.now }
    {
        let c = next_call(next);
        next.change(&mut self.plan);
        let numbers = play(next, &self.plan, c, &mut self.out);
        answer_bytes(numbers, digest(&self.plan), digest(&self.out))
    }
}

fn main(rt: HostRuntime) -> io::Result<()> {
    let mut record = [0u8; 65536];
    let n = read_full(&mut rt.stdin(), &mut record)?;
    let mut buffers = Buffers {
        plan: [0; 65536],
        out: [165; 2304],
    };
    replay(&record[..n], |next| rt.write_all(&buffers.answer(next)))
}
