// Request 11's generator.
ghost use Rattle.std.specs.Prelude.{◌≡◌, ◌<◌};
ghost use Rattle.practice.specs.Xorshift.{step};

// The state after one step. From one that is not 0 it never reaches 0.
pub fn step(state: u32) -> u32
    ensures state { result ≡ step state }
    ensures nonzero { 0 < state → 0 < result }
{
    let a = state ^ (state << 13);
    let b = a ^ (a >> 17);
    b ^ (b << 5)
}
