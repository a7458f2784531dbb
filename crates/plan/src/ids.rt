// The ids of a plan's blocks, and the search for one.
ghost use Rattle.std.specs.Prelude.{◌≡◌, ◌+◌, ◌*◌, ◌≤◌, length};
ghost use Rattle.plan.specs.Search.{short_of};
ghost use Rattle.plan.specs.Plan.{id_at, with_id};

use crate::bytes::u32_at;

// The id of the block at the index k. That the block is there is a bound on k: a type for it would carry k beside the plan.
pub fn id_at(plan: &[u8], k: usize) -> u32
    requires { 512 * k + 512 ≤ length plan.now }
    ensures { result ≡ id_at plan.now k }
{
    u32_at(plan, 512 * k)
}

// The index of the first block from `from` up to, not including, `to` that has the id.
pub fn with_id(plan: &[u8], from: usize, to: usize, id: u32) -> Option<usize>
    requires { 512 * to ≤ length plan.now }
    ensures { result ≡ short_of (with_id plan.now from to id) to }
{
    for j in from..to {
        if id_at(plan, j) == id {
            return Some(j);
        }
    }
    None
}
