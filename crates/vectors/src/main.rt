// Replays recorded inputs. Standard input holds them, each as changes to the one before; standard output is what the program writes for
// each. The record: a 32-bit number of inputs; for each its 32-bit length and its changes. Of both numbers the low half counts.
#![tactic(auto)]

use reading::read_full;
use recorded::{Record, replay_few};
use std::io;

// Writes what the program writes for an input.
fn answer(rt: &impl Print, input: &[u8]) -> io::Result<()> {
    let mut out = [0u8; 7168];
    let n = program::reply(input, &mut out);
    rt.write_all(&out[..n])
}

// Makes the changes that come next in the record, and writes the answer to what the buffer then holds.
fn replay_input(rt: &impl Print, buffer: &mut [u8; 65536], record: &mut Record) -> io::Result<()> {
    let n = record.low_half().min(buffer.len());
    record.change(buffer);
    answer(rt, &buffer[..n])
}

fn main(rt: HostRuntime) -> io::Result<()> {
    let mut record = [0u8; 262144];
    let n = read_full(&mut rt.stdin(), &mut record)?;
    let mut buffer = [0u8; 65536];
    replay_few(&record[..n], |next| replay_input(&rt, &mut buffer, next))
}
