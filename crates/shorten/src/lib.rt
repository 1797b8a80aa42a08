// Shortening a plan (document 02, ticket 3): a run that visits only what other runs still in visit is taken out.
#![tactic(auto)]

ghost use Rattle.std.specs.Prelude.{◌≡◌, [], ◌+◌, ◌≤◌, ◌<◌, ◌^◌, length};
ghost use Rattle.verdict.specs.Refusals.{answer_of};
ghost use Rattle.machine.specs.Runs.{machine_of, Run, visits_from};
ghost use Rattle.machine.specs.Plans.{runs_in};
ghost use Rattle.tables.specs.Tables.{machine_in};
ghost use Rattle.runs.specs.Stored.{StoredRuns};
ghost use Rattle.shorten.specs.Shortening.{ShortenedAs};
ghost use Rattle.shorten.specs.inner.Passing.{Changed};

use machine::{COUPLES, Frame};
use runs::{check_plan, run_end};
use tables::Job;
use tables::jobs::SoundJob;
use verdict::Refusal;

// Takes out of a stored plan, from first to last, each run whose couples other runs still in visit, and answers the bytes left; or the
// refusal: 2, 3, 4, 10 or 19. The bytes beyond those left keep their values.
pub fn shorten(frame: Frame, table: &[u8], plan: &mut [u8]) -> Result<usize, Refusal>
    ensures { ShortenedAs (machine_of frame table.now) plan.old (answer_of result) plan.new }
{
    let job = Job::single(frame, table);
    let sound = job.check_table()?;
    check_plan(job, plan)?;
    let mut marks = [0; COUPLES];
    let mut passes = Passes {
        sound,
        marks: &mut marks,
    };
    passes.mark_all(plan);
    Ok(passes.keep(plan))
}

// The couples that a change visits, and the state then.
#[derive(Clone, Copy)]
struct Visited {
    entered: usize,
    moved: usize,
    state: usize,
}

// So many settings of a run, and the state then.
#[derive(Clone, Copy)]
struct Place {
    settings: usize,
    state: usize,
}

// What the two passes over a plan go by: a table that passed, and a mark for each couple.
#[derive(Drop)]
struct Passes<'a> {
    sound: SoundJob<'a>,
    marks: &'a mut [usize; COUPLES],
}

impl Passes<'_> {
    ghost use Rattle.shorten.specs.inner.Passing.{Walkable, Stops, Few, Fresh, Tells, settings_in, Kept};
    ghost use Rattle.shorten.specs.inner.Marked.{marked, Stay, Turn};

    // The first pass: marks the couples of each run with the byte at which it starts, later runs over earlier ones.
    fn mark_all(&mut self, plan: &[u8])
        requires runs { StoredRuns (machine_in self.old.sound.job) plan.now }
        requires fresh { Fresh (machine_in self.old.sound.job) self.old.marks.now }
        ensures same { self.new.sound ≡ self.old.sound }
        ensures tells { Tells (machine_in self.old.sound.job) 0 [] (runs_in plan.now) self.new.marks.now }
        ensures few { Few (length plan.now) self.new.marks.now }
    {
        let mut at = 0;
        // a step is as long as the run stored there
        while at < plan.len() {
            let end = run_end(plan, at);
            self.mark(self.sound.job.frame.initial, &plan[at + 2..end], at);
            at = end;
        }
    }

    // Marks the couples that settings visit from a state on with x.
    fn mark(&mut self, from: usize, run: &[u8], x: usize)
        requires { Walkable (machine_in self.old.sound.job) from run.now }
        ensures { self.new ≡ marked (visits_from (machine_in self.old.sound.job) from run.now) x self.old }
    {
        let mut state = from;
        for &setting in run {
            let visited = change(self.sound, state, usize::from(setting));
            self.marks[visited.entered] = x;
            self.marks[visited.moved] = x;
            state = visited.state;
        }
    }

    // The second pass: moves the runs that stay down in order, and answers their bytes.
    fn keep(&mut self, plan: &mut [u8]) -> usize
        requires runs { StoredRuns (machine_in self.old.sound.job) plan.old }
        requires tells { Tells (machine_in self.old.sound.job) 0 [] (runs_in plan.old) self.old.marks.now }
        requires few { Few (length plan.old) self.old.marks.now }
        ensures { Kept (machine_in self.old.sound.job) plan.old result plan.new }
    {
        let mut at = 0;
        let mut to = 0;
        // a step is as long as the run stored there, and the plan is written on the way
        while at < plan.len() {
            let end = run_end(plan, at);
            to += self.keep_one(plan, at, end, to);
            at = end;
        }
        to
    }

    // The run from byte `at` up to byte `end`: taken out, or moved down to byte `to`. Answers the bytes kept.
    fn keep_one(&mut self, plan: &mut [u8], at: usize, end: usize, to: usize) -> usize
        requires run { Run (machine_in self.old.sound.job) (settings_in at end plan.old) }
        requires few { Few (length plan.old) self.old.marks.now }
        requires inside { (to ≤ at) × (at + 2 ≤ end) × (end ≤ length plan.old) }
        ensures { Turn (machine_in self.old.sound.job) (settings_in at end plan.old) at end to plan.old self.old result plan.new self.new }
    {
        if !self.stays(&plan[at + 2..end], end, plan.len()) {
            return 0;
        }
        plan.copy_within(at..end, to);
        end - at
    }

    // Whether a run stays: not each couple that it visits has a mark that reaches its end. Its couples are then marked with the plan's
    // length; the front of the run, whose couples have such marks already, is walked once.
    fn stays(&mut self, run: &[u8], end: usize, total: usize) -> bool
        requires run { Run (machine_in self.old.sound.job) run.now }
        requires few { Few total self.old.marks.now × (end ≤ total) }
        ensures { Stay (machine_in self.old.sound.job) run.now end total self.old result self.new }
    {
        let kept = self.reach(self.sound.job.frame.initial, run, total);
        let rest = &run[kept.settings..];
        if self.reach(kept.state, rest, end).settings == rest.len() {
            return false;
        }
        self.mark(kept.state, rest, total);
        true
    }

    // How far settings go from a state on while each couple that they visit has a mark of at least x.
    fn reach(&self, from: usize, run: &[u8], x: usize) -> Place
        requires { Walkable (machine_in self.now.sound.job) from run.now }
        ensures { Stops (machine_in self.now.sound.job) from run.now x self.now.marks.now result }
    {
        let marks = &*self.marks;
        let mut state = from;
        for (settings, &setting) in run.iter().enumerate() {
            let visited = change(self.sound, state, usize::from(setting));
            if marks[visited.entered] < x || marks[visited.moved] < x {
                return Place { settings, state };
            }
            state = visited.state;
        }
        Place {
            settings: run.len(),
            state,
        }
    }
}

// What a change to a setting visits in a state; the start of a run is one in the initial state, which rests there.
fn change(sound: SoundJob, state: usize, setting: usize) -> Visited
    requires { (state < sound.job.frame.states) × (setting < 2 ^ sound.job.frame.inputs) }
    ensures { Changed (machine_in sound.entry.job) state setting result }
{
    let entered = sound.couple(state, setting);
    let moved = usize::from(sound.job.table[entered]);
    Visited {
        entered,
        moved: sound.couple(moved, setting),
        state: moved,
    }
}
