// A script of operations on a panel.
ghost use Rattle.std.specs.Prelude.{◌≡◌, ◌+◌, ◌*◌, ◌≤◌, length, map, leb};
ghost use Rattle.std.proofs.lemmas.List.Edits.{sets};
ghost use Rattle.engine.specs.Timestep.{after};
ghost use Rattle.panel.specs.Script.{operation_of, answer_bytes, asked, rounds_in, answer, done, played};
ghost use Rattle.panel.specs.Code.Seen.{the_plan, model, Watches, Gives, Keeps};

use crate::panel::{AccessRefusal, Panel};

// Rounds, by how many; a read, by its address; a write, by its address and the byte written; a line, by its charger's place.
#[derive(Clone, Copy)]
pub enum Operation {
    Rounds(u32),
    Read(u32),
    Write(u32, u8),
    Line(u32),
}

// The operation that a number stands for.
pub fn operation_of(x: u64) -> Operation
    ensures { result ≡ operation_of x }
{
    let argument = (x / 0x1_0000_0000) as u32;
    match x % 4 {
        0 => Operation::Rounds(argument),
        1 => Operation::Read(argument),
        2 => Operation::Write(argument, (x / 256 % 256) as u8),
        _ => Operation::Line(argument),
    }
}

// How many rounds an operation asks for.
fn asked(operation: Operation) -> u64
    ensures { result ≡ asked operation }
{
    match operation {
        Operation::Rounds(n) => u64::from(n),
        _ => 0,
    }
}

// Whether the operations ask for no more rounds than a run may have.
pub fn within_allowance(script: &[u64]) -> bool
    ensures { result ≡ leb (rounds_in (map operation_of script.now)) 10000000 }
{
    let mut sum = 0;
    for x in script {
        sum += asked(operation_of(*x));
        if 10_000_000 < sum {
            return false;
        }
    }
    true
}

// An operation's answer and its byte.
fn answer_bytes(answer: Result<u8, AccessRefusal>) -> [u8; 2]
    ensures { result ≡ answer_bytes answer }
{
    match answer {
        Ok(byte) => [0, byte],
        Err(refusal) => [refusal as u8, 0],
    }
}

impl<'a> Panel<'a> {
    // Does one operation.
    fn operate(&mut self, operation: Operation) -> Result<u8, AccessRefusal>
        requires watches { Watches self.old }
        requires times { self.old.run.time + asked operation ≤ 10000000 }
        ensures answer { Gives (λ byte. byte) (answer self.old.loaded.plan.now (the_plan self.old) operation (model self.old)) result }
        ensures left { Keeps self.old (done self.old.loaded.plan.now (the_plan self.old) operation (model self.old)) self.new }
    {
        // The check has to meet the field's type here, or it cannot lend the panel to `read` and `line`.
        let _ = &self.loaded;
        match operation {
            Operation::Rounds(count) => {
                self.rounds(count);
                Ok(0)
            }
            Operation::Read(address) => self.read(address),
            Operation::Write(address, byte) => self.write(address, byte).map(|()| 0),
            Operation::Line(c) => self.line(c).map(u8::from),
        }
    }

    // Plays the operations of a script. Their answers and bytes go to `out`; the run beside them is that of as many rounds.
    pub fn play(&mut self, script: &[u64], out: &mut [u8])
        requires watches { Watches self.old }
        requires times { self.old.run.time + rounds_in (map operation_of script.now) ≤ 10000000 }
        requires room { 2 * length script.now ≤ length out.old }
        ensures out { out.new ≡ sets out.old 0 (played self.old.loaded.plan.now (the_plan self.old) script.now (model self.old)) }
        ensures run { (model self.new).run ≡ after (the_plan self.old) (rounds_in (map operation_of script.now)) (model self.old).run }
    {
        for i in 0..script.len() {
            let [answer, byte] = answer_bytes(self.operate(operation_of(script[i])));
            out[2 * i] = answer;
            out[2 * i + 1] = byte;
        }
    }
}
