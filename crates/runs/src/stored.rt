// Runs in a stored plan: one setting of a run, where a run ends, and whether bytes are stored runs: refusal 19.
ghost use Rattle.std.specs.Prelude.{◌≡◌, ◌<◌, length, get_or};
ghost use Rattle.verdict.specs.Checks.{Finds, Passed, Judged};
ghost use Rattle.verdict.specs.Refusals.{verdict_of};
ghost use Rattle.machine.specs.Limits.{most_settings};
ghost use Rattle.tables.specs.Tables.{machine_in};
ghost use Rattle.runs.specs.Stored.{stored_end, Broken, broken_checks};
ghost use Rattle.runs.specs.inner.Splits.{Counted, Next};

use crate::faults::first_fault;
use tables::Job;
use tables::jobs::SizedJob;
use verdict::Refusal;

// Setting i of a run, 0 beyond its end.
pub fn setting(run: &[u8], i: usize) -> usize
    ensures { (result ≡ get_or run.now i 0) × (result < most_settings) }
{
    run.get(i).map_or(0, |&v| usize::from(v))
}

// Where the run whose count stands at a byte of a stored plan ends, at the latest with the plan.
pub fn run_end(plan: &[u8], at: usize) -> usize
    ensures { result ≡ stored_end plan.now at }
{
    whole_end(plan, at).unwrap_or(plan.len())
}

// Where that run ends, if it does so within the plan.
fn whole_end(plan: &[u8], at: usize) -> Option<usize>
    ensures { Counted plan.now at result }
{
    let (count, behind) = plan.get(at..)?.split_first_chunk::<2>()?;
    let settings = usize::from(u16::from_le_bytes(*count));
    if behind.len() < settings {
        return None;
    }
    Some(at + 2 + settings)
}

// Refusal 19 of the bytes of a plan, handed in with a table to which refusals 2 and 3 do not apply; with any other there is none.
pub fn check_plan(job: Job, plan: &[u8]) -> Result<(), Refusal>
    ensures { Judged (broken_checks (machine_in job.entry) plan.now) Passed (verdict_of result) }
{
    let Ok(sized) = job.check_sizes() else {
        return Ok(());
    };
    match first_broken(sized, plan) {
        Some(byte) => Err(Refusal::NoPlan(byte)),
        None => Ok(()),
    }
}

// The first byte at which a run should start and none does.
fn first_broken(sized: SizedJob, plan: &[u8]) -> Option<usize>
    ensures { Finds (Broken (machine_in sized.entry.job) plan.now) result }
{
    let mut at: usize = 0;
    // each step is as long as a stored run
    while at < plan.len() {
        let Some(end) = next_start(sized, plan, at) else {
            return Some(at);
        };
        at = end;
    }
    None
}

// Where the run that starts at a byte ends, if a run does start there.
fn next_start(sized: SizedJob, plan: &[u8], at: usize) -> Option<usize>
    requires { at < length plan.now }
    ensures { Next (machine_in sized.entry.job) plan.now at result }
{
    let end = whole_end(plan, at)?;
    match first_fault(sized, &plan[at + 2..end]) {
        Some(_) => None,
        None => Some(end),
    }
}
