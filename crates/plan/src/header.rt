// The header of a plan with another number of vehicles.
ghost use Rattle.std.specs.Prelude.{◌≡◌, ◌≤◌, length};
ghost use Rattle.std.proofs.lemmas.List.Edits.{sets};
ghost use Rattle.plan.specs.Header.{header_counting};

use crate::blocks::seal;
use crate::bytes::{put, put_bytes};
use crate::places::PlanFile;

// Stores the plan's header at the start of s, with another number of vehicles.
pub fn put_header(s: &mut [u8], plan: &PlanFile, vehicles: usize)
    requires { 512 ≤ length s.old }
    ensures { s.new ≡ sets s.old 0 (header_counting vehicles plan.now) }
{
    put_bytes(s, 0, &plan.bytes[..8]);
    put(s, 8, 2, vehicles as u64);
    put_bytes(s, 10, &plan.bytes[10..508]);
    seal(s, 0, 1);
}
