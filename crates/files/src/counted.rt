// A plan whose blocks are those that its header counts.
ghost use Rattle.files.specs.Code.Reading.{Counted};

use plan::places::PlanFile;

// A plan that is its header and as many blocks as the header says, no more of a kind than a plan can have. It is made where the blocks were
// checked, and where a record of what a book or a dump needs says so: handed on in between, it would stand in each call of both engines.
#[derive(Drop)]
pub struct CountedPlan<'a> {
    pub file: PlanFile<'a>,
    pub ghost counted: { Counted file },
}
