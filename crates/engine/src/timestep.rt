// The step engine's loop (simulation/timestep.rs). A round is the events due, the power, the progress, the freed chargers.
ghost use Rattle.std.specs.Prelude.{◌≡◌, ◌+◌, ◌<◌, ◌≤◌, false, ◌&&◌, length};
ghost use Rattle.std.specs.List.{list_all};
ghost use Rattle.charger.specs.Lists.{All};
ghost use Rattle.charger.specs.Code.Queue.{waiting};
ghost use Rattle.charger.specs.Code.Vehicles.{listed};
ghost use Rattle.engine.specs.Events.{Ordered};
ghost use Rattle.engine.specs.SiteState.{is_empty};
ghost use Rattle.charger.specs.Code.Profiles.{curve_at};
ghost use Rattle.power.specs.ChargerState.{is_free, all_free};
ghost use Rattle.power.specs.Code.Bank.{spun};
ghost use Rattle.power.specs.Code.Rounds.{spin};
ghost use Rattle.engine.specs.Code.Simulation.{pending, plan_of, InTime};
ghost use Rattle.engine.specs.Timestep.{ended, start, run};
ghost use Rattle.engine.specs.Code.Events.{is_due, next_time};
ghost use Rattle.engine.specs.Code.Steps.{Running, SiteWithin, step_state, GoesOn, RoundsDone, RunDone};

use crate::plug_in::State;
use crate::rising_site::RisingSite;
use crate::site::{Simulation, Site};
use fixed_vec::FixedVec;
use power::charger_state::ChargerState;
use power::power::Spun;
use power::rounds::charge_until;

impl State {
    // The start of a run: no car at any charger.
    fn new(site: &Site) -> Self
        requires plan { SiteWithin site.now }
        requires times { All InTime (listed site.now.vehicles) }
        ensures start { step_state result 0 ≡ start (plan_of site.now) }
        ensures fit { Running site.now 0 result }
    {
        let mut bank = FixedVec::<ChargerState, 32>::new();
        for _c in 0..site.chargers.len() {
            bank.push(ChargerState::default());
        }
        State {
            simulation: Simulation::new(&site.vehicles),
            bank,
        }
    }

    fn all_free(&self) -> bool
        ensures { result ≡ list_all (λ s. is_free s.status) self.now.bank.items }
    {
        self.bank.iter().all(|s| s.status.is_free())
    }

    // Nothing is left to come: the Rust's loop would not go round again.
    fn is_ended(&self) -> bool
        ensures { result ≡ (is_empty (pending self.now.simulation.events) && (all_free self.now.bank.items && is_empty (waiting self.now.simulation.queue))) }
    {
        self.simulation.events.is_empty() && self.simulation.queue.ids.is_empty() && self.all_free()
    }

    // The time of the next event, or `last` where that is no later.
    fn next_time(&self, last: u64) -> u64
        ensures { result ≡ next_time last (pending self.now.simulation.events) }
    {
        match self.simulation.events.first() {
            Some(event) => event.time.min(last),
            None => last,
        }
    }

    // Rounds of power and progress, up to `count` of them, or to the first in which a charger is finished.
    fn charge(&mut self, rising: RisingSite<'_>, count: u64) -> Spun
        ensures spun { spun self.new.bank.items result ≡ spin rising.entry.site.now.limit (curve_at rising.entry.site.now.curves rising.entry.site.now.lens) 0 count self.old.bank.items }
        ensures rest { self.new.simulation ≡ self.old.simulation }
    {
        let bank = self.bank.as_mut_slice();
        charge_until(bank, rising.profiles(), rising.site.limit, count)
    }

    // With no event due: rounds up to the next event, to the end at `last`, or to the first in which a charger is finished.
    fn spin(&mut self, rising: RisingSite<'_>, time: u64, last: u64) -> u64
        requires fit { Running rising.site.now 0 self.old }
        requires before { time < last }
        requires none { is_due time (pending self.old.simulation.events) ≡ false }
        requires going { ended (plan_of rising.site.now) (step_state self.old time) ≡ false }
        ensures { GoesOn rising.entry.site.now last time self.old result self.new }
    {
        let next = self.next_time(last);
        let spun = self.charge(rising, next - time);
        let then = time + spun.rounds;
        if spun.any {
            self.free_finished(rising.site, then - 1);
        }
        then
    }

    // The events due, and the rounds behind them. The round counts even where nothing is left to come behind its events.
    fn turn(&mut self, rising: RisingSite<'_>, time: u64, last: u64) -> u64
        requires fit { Running rising.site.now 0 self.old }
        requires before { time < last }
        requires going { ended (plan_of rising.site.now) (step_state self.old time) ≡ false }
        ensures { GoesOn rising.entry.site.now last time self.old result self.new }
    {
        self.handle_due(rising.site, time);
        if self.is_ended() {
            return time + 1;
        }
        self.spin(rising, time, last)
    }
}

// The state of a run after the units up to `time`, and whether it has ended. A run can go on from it.
#[derive(Clone, Copy)]
pub struct StepRun {
    pub state: State,
    pub time: u64,
    pub ended: bool,
}

// Up to `count` rounds more.
pub fn rounds(rising: RisingSite<'_>, run: &mut StepRun, count: u64)
    requires fit { Running rising.site.now 0 run.old.state }
    requires times { run.old.time + count < 18446744073709551616 }
    ensures { RoundsDone rising.entry.site.now count run.old run.new }
{
    let last = run.time + count;
    while run.time < last {
        if run.state.is_ended() {
            run.ended = true;
            return;
        }
        run.time = run.state.turn(rising, run.time, last);
    }
    run.ended = run.state.is_ended();
}

// A run by steps, of up to `allowance` rounds from time 0.
pub fn run(rising: RisingSite<'_>, allowance: u64) -> StepRun
    requires plan { SiteWithin rising.site.now }
    requires times { All InTime (listed rising.site.now.vehicles) }
    requires limit { allowance ≤ 10000000 }
    ensures done { RunDone rising.entry.site.now allowance result }
    ensures order { Ordered (pending result.state.simulation.events) }
{
    let mut run = StepRun {
        state: State::new(rising.site),
        time: 0,
        ended: false,
    };
    rounds(rising, &mut run, allowance);
    run
}
