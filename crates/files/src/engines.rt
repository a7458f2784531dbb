// Which engine runs a plan. A `match` tells the two, which run over different states: a closure for each would hide that there are two.
ghost use Rattle.files.specs.Code.Running.{EngineOf};

use plan::answer::Refusal;

// The engine of a call; a book's byte may be any, and stands by its number.
#[derive(Clone, Copy)]
pub enum Engine {
    Events,
    Steps,
}

impl TryFrom<u32> for Engine {
    type Error = Refusal;

    ghost try_from_gives = { EngineOf };

    fn try_from(number: u32) -> Result<Self, Refusal> {
        match number {
            0 => Ok(Engine::Events),
            1 => Ok(Engine::Steps),
            _ => Err(Refusal::EngineAbove),
        }
    }
}
