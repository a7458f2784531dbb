// A plan that is checked, and if it is fine dumped after some events, into a buffer of any length from 16,384 bytes on, as C lends it.
ghost use Rattle.std.specs.Prelude.{◌≡◌, ◌≤◌, length};
ghost use Rattle.files.specs.Book.{written};
ghost use Rattle.files.specs.Check.{check_plan};
ghost use Rattle.dump.specs.Dump.{dump_of};
ghost use Rattle.late_booking.specs.Call.{dumped_after};

use dump::dump::put_dump;
use engine::discrete;
use engine::site::Site;
use files::check::read_admitted;
use files::loaded::LoadedPlan;
use plan::answer::Refusal;
use plan::plan::check_blocks;

// Dumps a plan that was read, after n events.
fn dump_site(read: LoadedPlan<'_>, n: u64, dump: &mut [u8])
    requires { 16384 ≤ length dump.old }
    ensures { dump.new ≡ written (dump_of read.entry.plan.now n) dump.old }
{
    let LoadedPlan { plan, site } = read;
    let state = discrete::run(site, n);
    put_dump(dump, plan, site, &state);
}

// Checks a plan, and dumps it after n events if it is fine. A refused plan changes nothing.
#[tactic(auto, using(files::proofs::check::PairLaws::blocks_refused))]
pub fn check_dump(plan: &[u8], n: u64, dump: &mut [u8]) -> Result<(), Refusal>
    requires { 16384 ≤ length dump.old }
    ensures answer { result ≡ check_plan plan.now }
    ensures dump { dump.new ≡ dumped_after plan.now n result dump.old }
{
    check_blocks(plan)?;
    let mut site = Site::empty();
    read_admitted(plan, &mut site)?;
    dump_site(LoadedPlan { plan, site: &site }, n, dump);
    Ok(())
}
