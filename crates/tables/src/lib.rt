// The checks of a lent table (document 01, "Refusals by number"): one gate for every job that is handed one.
#![tactic(auto)]

ghost use Rattle.std.specs.Prelude.{◌≡◌, true, false, ℕ, IfOk};
ghost use Rattle.verdict.specs.Checks.{Decides, Passed, Judged};
ghost use Rattle.verdict.specs.Refusals.{verdict_of};
ghost use Rattle.machine.specs.Runs.{machine_of, machine_by, Starts};
ghost use Rattle.tables.specs.Tables.{machine_in, Tabled, size_checks, table_checks, sound_checks};

use crate::jobs::{SizedJob, SoundJob};
use machine::{Frame, settings};
use verdict::{Refusal, Room};

pub mod jobs;

// What a table job is handed: a frame and a table of moves, and whether several inputs may change at once.
#[derive(Clone, Copy, Debug, PartialEq, Eq)]
pub struct Job<'a> {
    pub frame: Frame,
    pub several: bool,
    pub table: &'a [u8],
}

impl<'a> Job<'a> {
    // A job whose runs change one input at a time.
    pub fn single(frame: Frame, table: &'a [u8]) -> Self
        ensures { (machine_in result ≡ machine_of frame table.now) × (result.frame ≡ frame) × (result.several ≡ false) × (result.table.now ≡ table.now) }
    {
        Job {
            frame,
            several: false,
            table,
        }
    }

    // A job whose runs may change several inputs at once.
    pub fn multiple(frame: Frame, table: &'a [u8]) -> Self
        ensures { (machine_in result ≡ machine_by true frame table.now) × (result.frame ≡ frame) × (result.several ≡ true) × (result.table.now ≡ table.now) }
    {
        Job {
            frame,
            several: true,
            table,
        }
    }

    // Whether the sizes are in their ranges and the table has an element for each couple: otherwise refusal 2 or 3.
    pub fn tabled(self) -> bool
        ensures { Decides (Tabled (machine_in self.entry)) result }
    {
        self.check_sizes().is_ok()
    }

    // Refusals 2 and 3 of a table.
    pub fn check_sizes(self) -> Result<SizedJob<'a>, Refusal>
        ensures verdict { Judged (size_checks (machine_in self.entry)) Passed (verdict_of result) }
        ensures job { IfOk result (λ sized. sized.job ≡ self.entry) }
    {
        if !self.frame.sized() {
            return Err(Refusal::WrongSize);
        }
        let needed = self.frame.states * settings(self.frame.inputs);
        Room {
            needed,
            has: self.table.len(),
        }
        .check()?;
        Ok(SizedJob { job: self })
    }

    // Refusals 2, 3, 4 and 10 of a table.
    pub fn check_table(self) -> Result<SoundJob<'a>, Refusal>
        ensures verdict { Judged (table_checks (machine_in self.entry)) Passed (verdict_of result) }
        ensures job { IfOk result (λ sound. sound.job ≡ self.entry) }
    {
        self.check_sizes()?.check_moves()
    }

    // Refusals 2, 3, 4 and 10 to 13 of a table and the output words of its states.
    pub fn check_sound(self, words: &[u16]) -> Result<(), Refusal>
        ensures { Judged (sound_checks (machine_in self.entry) words.now) Passed (verdict_of result) }
    {
        let sized = self.check_sizes()?;
        Room {
            needed: self.frame.states,
            has: words.len(),
        }
        .check()?;
        sized.check_moves()?.check_states(words)
    }

    // Whether a setting is a start of a table, refusals 2 and 3 passed.
    pub fn is_start(self, setting: usize) -> bool
        ensures { Decides (Tabled (machine_in self.entry) × Starts (machine_in self.entry) setting) result }
    {
        self.check_sizes()
            .is_ok_and(|sized| sized.is_start(setting))
    }

    // Whether a table has a start, refusals 2 and 3 passed: otherwise refusal 13.
    pub fn started(self) -> bool
        ensures { Decides (Tabled (machine_in self.entry) × ((v : ℕ) × Starts (machine_in self.entry) v)) result }
    {
        self.check_sizes().is_ok_and(|sized| sized.started())
    }
}
