// Whether a list of settings is a run of a table, and where its first fault is: refusal 17.
ghost use Rattle.std.specs.Prelude.{◌≡◌, ◌<◌, ◌^◌};
ghost use Rattle.verdict.specs.Checks.{Decides, Finds, Passed, Judged};
ghost use Rattle.verdict.specs.Refusals.{verdict_of};
ghost use Rattle.machine.specs.Runs.{Changes, Fault};
ghost use Rattle.tables.specs.Tables.{machine_in};
ghost use Rattle.runs.specs.Faults.{fault_checks};

use crate::stored::setting;
use tables::Job;
use tables::jobs::SizedJob;
use verdict::Refusal;

// Refusal 17 of a list of settings, handed in with a table to which refusals 2 and 3 do not apply; with any other there is none.
pub fn check_run(job: Job, run: &[u8]) -> Result<(), Refusal>
    ensures { Judged (fault_checks (machine_in job.entry) run.now) Passed (verdict_of result) }
{
    let Ok(sized) = job.check_sizes() else {
        return Ok(());
    };
    match first_fault(sized, run) {
        Some(index) => Err(Refusal::NoRun(index)),
        None => Ok(()),
    }
}

// The first index at which a list of settings is no run, 0 if it is empty.
pub(crate) fn first_fault(sized: SizedJob, run: &[u8]) -> Option<usize>
    ensures { Finds (Fault (machine_in sized.entry.job) run.now) result }
{
    let mut from = setting(run, 0);
    if run.is_empty() || !sized.is_start(from) {
        return Some(0);
    }
    for i in 1..run.len() {
        let to = setting(run, i);
        if !may_change(sized, from, to) {
            return Some(i);
        }
        from = to;
    }
    None
}

// Whether a run may change from one setting to another: to one that is not ruled out, and exactly one input differs, or at least one
// where several may change at once.
fn may_change(sized: SizedJob, from: usize, to: usize) -> bool
    requires { from < 2 ^ sized.job.frame.inputs }
    ensures { Decides (Changes (machine_in sized.entry.job) from to) result }
{
    if sized.settings() <= to || !sized.job.frame.usable(to) {
        return false;
    }
    let altered = (from ^ to).count_ones();
    if sized.job.several {
        return altered > 0;
    }
    altered == 1
}
