// The run to a couple, and the plan (document 01, "Runs and ranks"); where several inputs may change at once, the run to a couple and the
// list of such runs apart from the plan (document 02, ticket 6): refusals 14, 15, 16 and 20, after those of marking.
#![tactic(auto)]

ghost use Rattle.std.specs.Prelude.{◌≡◌, true};
ghost use Rattle.verdict.specs.Refusals.{refused_by, answer_of};
ghost use Rattle.machine.specs.Runs.{machine_of, machine_by};
ghost use Rattle.plan.specs.Planning.{RunAs, PlannedAs};
ghost use Rattle.plan.specs.Multi.{MultiAs, ListedAs};
ghost use Rattle.plan.specs.inner.Writing.{Ends, unvisited_by};
ghost use Rattle.plan.specs.inner.Marks.{plan_in, RunEndsIn};
ghost use Rattle.plan.specs.inner.Both.{RunBy, PlanBy};

use crate::marked::Marked;
use machine::{COUPLES, Frame};
use marking::{EXTRA, UNWEIGHED, mark_parents};
use tables::Job;
use tables::jobs::SizedJob;
use verdict::Refusal;

mod choosing;
mod marked;
mod writing;

// Writes the run to a couple, one byte a setting, and answers how many settings it has; or the first failing check at its smallest
// place. The ranks are filled as by marking.
pub fn run_to(
    frame: Frame,
    table: &[u8],
    ranks: &mut [u16],
    couple: usize,
    run: &mut [u8],
) -> Result<usize, Refusal>
    ensures { RunAs (machine_of frame table.now) couple ranks.old run.old (answer_of result) ranks.new run.new }
{
    run_by(Job::single(frame, table), ranks, couple, run)
}

// The same where several inputs may change at once: the run with the fewest multiple changes, and among those the fewest changes.
pub fn multi_run_to(
    frame: Frame,
    table: &[u8],
    ranks: &mut [u16],
    couple: usize,
    run: &mut [u8],
) -> Result<usize, Refusal>
    ensures { MultiAs (machine_by true frame table.now) couple ranks.old run.old (answer_of result) ranks.new run.new }
{
    run_by(Job::multiple(frame, table), ranks, couple, run)
}

// Both, with the machine's weights and parents.
fn run_by(job: Job, ranks: &mut [u16], couple: usize, run: &mut [u8]) -> Result<usize, Refusal>
    ensures { RunBy job.entry.several job.entry.frame job.entry.table.now couple ranks.old run.old (answer_of result) ranks.new run.new }
{
    let mut weights = [0u32; COUPLES];
    let mut parents = [0u16; COUPLES];
    mark_parents(job, ranks, &mut weights, &mut parents)?;
    Marked::of(SizedJob { job }, &weights, &parents).run_to(couple, run)
}

// Writes the plan in its stored form and answers how many bytes it has; or the first failing check at its smallest place. The ranks are
// filled as by marking; a plan that does not fit whole is not written at all.
pub fn plan(
    frame: Frame,
    table: &[u8],
    ranks: &mut [u16],
    plan: &mut [u8],
) -> Result<usize, Refusal>
    ensures { PlannedAs (machine_of frame table.now) ranks.old plan.old (answer_of result) ranks.new plan.new }
{
    plan_by(Job::single(frame, table), ranks, plan)
}

// The same of the list apart from the plan: the runs, several inputs changing at once, to couples that no single changes visit.
pub fn multi_list(
    frame: Frame,
    table: &[u8],
    ranks: &mut [u16],
    list: &mut [u8],
) -> Result<usize, Refusal>
    ensures { ListedAs (machine_by true frame table.now) ranks.old list.old (answer_of result) ranks.new list.new }
{
    plan_by(Job::multiple(frame, table), ranks, list)
}

// Both, with the machine's weights and parents.
fn plan_by(job: Job, ranks: &mut [u16], out: &mut [u8]) -> Result<usize, Refusal>
    ensures { PlanBy job.entry.several job.entry.frame job.entry.table.now ranks.old out.old (answer_of result) ranks.new out.new }
{
    let mut weights = [0u32; COUPLES];
    let mut parents = [0u16; COUPLES];
    mark_parents(job, ranks, &mut weights, &mut parents)?;
    Marked::of(SizedJob { job }, &weights, &parents).plan(out)
}

impl<'a> Marked<'a> {
    // Refusals 14, 15 or where several inputs may change at once 20, and 16, and the run to a couple.
    fn run_to(&self, couple: usize, run: &mut [u8]) -> Result<usize, Refusal>
        ensures { RunEndsIn self.now couple run.old (answer_of result) run.new }
    {
        if self.couples <= couple {
            return Err(Refusal::NoCouple);
        }
        let weight = self.weights[couple];
        if weight == UNWEIGHED {
            return Err(self.unvisited());
        }
        let needed = (weight % EXTRA) as usize + 1;
        if run.len() < needed {
            return Err(Refusal::ShortRun(needed));
        }
        self.write_run(couple, &mut run[..needed]);
        Ok(needed)
    }

    // The refusal of a couple that no run visits.
    fn unvisited(&self) -> Refusal
        ensures { refused_by result ≡ record { number = unvisited_by self.now.several; place = 0 } }
    {
        if self.several {
            Refusal::Unvisited
        } else {
            Refusal::Unmarked
        }
    }

    // Refusal 16, and the plan, or where several inputs may change at once the list.
    fn plan(&self, out: &mut [u8]) -> Result<usize, Refusal>
        ensures { Ends (plan_in self.now) out.old (answer_of result) out.new }
    {
        let mut visited = [false; COUPLES];
        let mut chosen = [false; COUPLES];
        let bytes = self.choose(&mut visited, &mut chosen);
        if out.len() < bytes {
            return Err(Refusal::ShortRun(bytes));
        }
        self.write_plan(&chosen, out);
        Ok(bytes)
    }
}
