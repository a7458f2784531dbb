// What a call can answer: the refusals and the counts of a run, with the paper's number and places of each and its eleven
// result numbers (number, places, units used, ended, and the six counts).
ghost use Rattle.std.specs.Prelude.{◌≡◌};
ghost use Rattle.plan.specs.Answer.{number as Answer·number, place, other_place, refusal_numbers, check_numbers, numbers};

// What a plan's blocks are refused for, by the paper's number.
#[derive(Clone, Copy, Debug, PartialEq, Eq)]
pub enum Rule {
    Length = 4,
    Check,
    Header,
    Field,
    NoPoint,
    EqualSoc,
    UsedId,
    NoProfile,
}

// Why a call is refused, in number order: the engine, the allowance, a book that is too short; a rule refuses a block, by its
// place in the file; a vehicle's block and a charger's cannot charge; a dump that is too short, or not one of the plan; a book
// whose blocks are damaged, or that is against the rules; a car for which there is no place, or that comes too early to be booked late;
// what no practice day can be made of.
#[derive(Clone, Copy, Debug, PartialEq, Eq)]
pub enum Refusal {
    EngineAbove,
    AllowanceAbove,
    BookUnder,
    Broken(Rule, usize),
    CannotCharge(usize, usize),
    DumpUnder,
    OtherDump,
    BookDamaged,
    BookAgainstRules,
    VehiclesFull,
    NotLater,
    NoPracticeDay,
}

// Units used, ended, and how many vehicles are yet to arrive and queued; how many sessions are open, charged, reneged, balked.
#[derive(Clone, Copy, Default)]
pub struct Totals {
    pub used: u64,
    pub ended: bool,
    pub yet_to_arrive: u64,
    pub queued: u64,
    pub still_open: u64,
    pub charged: u64,
    pub reneged: u64,
    pub balked: u64,
}

impl Refusal {
    // The paper's number. Cases that hold values have no discriminant of their own.
    pub fn number(self) -> u64
        ensures { result ≡ Answer·number self }
    {
        match self {
            Refusal::EngineAbove => 1,
            Refusal::AllowanceAbove => 2,
            Refusal::BookUnder => 3,
            Refusal::Broken(rule, _) => rule as u64,
            Refusal::CannotCharge(_, _) => 12,
            Refusal::DumpUnder => 13,
            Refusal::OtherDump => 14,
            Refusal::BookDamaged => 15,
            Refusal::BookAgainstRules => 16,
            Refusal::VehiclesFull => 17,
            Refusal::NotLater => 18,
            Refusal::NoPracticeDay => 19,
        }
    }

    // The two places that it names; 0 for one that it does not name.
    pub fn places(self) -> (usize, usize)
        ensures first { result.0 ≡ place self }
        ensures second { result.1 ≡ other_place self }
    {
        match self {
            Refusal::Broken(_, k) => (k, 0),
            Refusal::CannotCharge(v, c) => (v, c),
            _ => (0, 0),
        }
    }
}

// A refusal's: every other number is zero.
fn refusal_numbers(refusal: Refusal) -> [u64; 11]
    ensures { result ≡ refusal_numbers refusal }
{
    let (first, second) = refusal.places();
    [
        refusal.number(),
        first as u64,
        second as u64,
        0,
        0,
        0,
        0,
        0,
        0,
        0,
        0,
    ]
}

// The eleven numbers of a run that stopped.
fn stopped(t: Totals) -> [u64; 11]
    ensures { result ≡ numbers (Ok t) }
{
    [
        0,
        0,
        0,
        t.used,
        u64::from(t.ended),
        t.yet_to_arrive,
        t.queued,
        t.still_open,
        t.charged,
        t.reneged,
        t.balked,
    ]
}

// The eleven numbers of a run.
pub fn run_numbers(answer: Result<Totals, Refusal>) -> [u64; 11]
    ensures { result ≡ numbers answer }
{
    match answer {
        Ok(totals) => stopped(totals),
        Err(refusal) => refusal_numbers(refusal),
    }
}

// The eleven numbers of a check: of a plan that is fine, those of a run in which nothing came about. One function for both kinds of answer would
// want a conversion of () to totals, and would say no more than this line does.
pub fn check_numbers(answer: Result<(), Refusal>) -> [u64; 11]
    ensures { result ≡ check_numbers answer }
{
    run_numbers(answer.map(|()| Totals::default()))
}
