// Expected readings (document 01, "Runs and ranks"): what a board that moves as the specification says shows on a run.
#![tactic(auto)]

ghost use Rattle.std.specs.Prelude.{◌≡◌, true, ℕ, ◌<◌, ◌^◌, get_or, length, IfOk};
ghost use Rattle.verdict.specs.Checks.{Judged, Passed};
ghost use Rattle.verdict.specs.Refusals.{answer_of, verdict_of};
ghost use Rattle.verdict.specs.Buffers.{Front};
ghost use Rattle.machine.specs.Runs.{machine_of, machine_by, move};
ghost use Rattle.machine.specs.Boards.{readings as readingsOn, specified};
ghost use Rattle.tables.specs.Tables.{machine_in};
ghost use Rattle.readings.specs.Expected.{readings_needed, shape_checks, ExpectedAs};
ghost use Rattle.readings.specs.inner.Walking.{Walkable};

use machine::Frame;
use runs::{check_run, setting};
use tables::Job;
use tables::jobs::{SizedJob, SoundJob};
use verdict::{Refusal, Room};

// A run handed in has at most so many settings.
pub const LONGEST_RUN: usize = 65535;

// The readings of a run on the specification's own board, or the refusal: 2, 3, 4, 10 or 17.
pub fn expected(
    frame: Frame,
    table: &[u8],
    words: &[u16],
    run: &[u8],
    readings: &mut [u16],
) -> Result<usize, Refusal>
    ensures { ExpectedAs (machine_of frame table.now) words.now run.now readings.old (answer_of result) readings.new }
{
    expected_by(Job::single(frame, table), words, run, readings)
}

// The same of a run that may change several inputs at once.
pub fn multi_expected(
    frame: Frame,
    table: &[u8],
    words: &[u16],
    run: &[u8],
    readings: &mut [u16],
) -> Result<usize, Refusal>
    ensures { ExpectedAs (machine_by true frame table.now) words.now run.now readings.old (answer_of result) readings.new }
{
    expected_by(Job::multiple(frame, table), words, run, readings)
}

// Both: of a job's run.
fn expected_by(job: Job, words: &[u16], run: &[u8], readings: &mut [u16]) -> Result<usize, Refusal>
    ensures { ExpectedAs (machine_in job.entry) words.now run.now readings.old (answer_of result) readings.new }
{
    let sound = check_shape(job, words, run, readings.len())?.check_moves()?;
    check_run(job, run)?;
    fill(sound, words, run, readings);
    Ok(needed(run))
}

// Refusals 2 and 3, with room for so many readings.
fn check_shape<'a>(
    job: Job<'a>,
    words: &[u16],
    run: &[u8],
    room: usize,
) -> Result<SizedJob<'a>, Refusal>
    ensures verdict { Judged (shape_checks (machine_in job.entry) (length words.now) run.now room) Passed (verdict_of result) }
    ensures job { IfOk result (λ sized. sized.job ≡ job.entry) }
{
    if LONGEST_RUN < run.len() {
        return Err(Refusal::WrongSize);
    }
    let sized = job.check_sizes()?;
    Room {
        needed: job.frame.states,
        has: words.len(),
    }
    .check()?;
    Room {
        needed: needed(run),
        has: room,
    }
    .check()?;
    Ok(sized)
}

// How many readings a run has.
fn needed(run: &[u8]) -> usize
    ensures { result ≡ readings_needed run.now }
{
    (2 * run.len()).saturating_sub(1)
}

// Writes the readings of a run: one at the start, two at each change.
fn fill(sound: SoundJob, words: &[u16], run: &[u8], readings: &mut [u16])
    requires { Walkable (machine_in sound.job) (length words.now) run.now (length readings.old) }
    ensures { Front (readingsOn (specified (machine_in sound.entry.job) (λ (s : ℕ). get_or words.now s 0)) run.now) readings.old readings.new }
{
    let mut state = move_of(sound, sound.job.frame.initial, setting(run, 0));
    readings[0] = words[state];
    for i in 1..run.len() {
        let next = setting(run, i);
        let moved = move_of(sound, state, next);
        readings[2 * i - 1] = words[moved];
        state = move_of(sound, moved, next);
        readings[2 * i] = words[state];
    }
}

// The move of the couple (s, v).
fn move_of(sound: SoundJob, s: usize, v: usize) -> usize
    requires { (s < sound.job.frame.states) × (v < 2 ^ sound.job.frame.inputs) }
    ensures { (result ≡ move (machine_in sound.entry.job) s v) × (result < sound.entry.job.frame.states) }
{
    usize::from(sound.job.table[sound.couple(s, v)])
}
