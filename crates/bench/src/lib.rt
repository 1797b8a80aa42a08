// The bench log: one record, lent to the bench and updated at each reading.
#![tactic(auto)]

ghost use Rattle.std.specs.Prelude.{◌≡◌, MatchResult, Ok, Err};
ghost use Rattle.bench.specs.Log.{outcome, update_of};
ghost use Rattle.bench.specs.History.{fresh_log};

mod counting;
mod sound;

use basics::OUTPUTS;
use verdict::Refusal;

// The log keeps the first 32 differences, and counts up to 4,294,967,295 readings.
pub const ENTRIES: usize = 32;

pub const READINGS: u32 = u32::MAX;

// A reading as the bench gives it: run, change, first or second reading, and the two words. Runs count from 1; the start's reading is change 0, first.
#[repr(C)]
#[derive(Clone, Copy, Debug, PartialEq, Eq, Default)]
pub struct Reading {
    pub run: u16,
    pub change: u16,
    pub second: bool,
    pub expected: u16,
    pub seen: u16,
}

// Readings, differing readings, entries kept, the first 32 differences, and the readings in which each output differed.
#[repr(C)]
#[derive(Clone, Copy, Debug, PartialEq, Eq)]
pub struct Log {
    pub readings: u32,
    pub differing: u32,
    pub kept: u32,
    pub entries: [Reading; ENTRIES],
    pub outputs: [u32; OUTPUTS],
}

// What an accepted update answers.
#[derive(Clone, Copy, Debug, PartialEq, Eq)]
pub enum Noted {
    Equal,
    Stored,
    Full,
}

// A fresh log: all zero.
pub fn fresh() -> Log
    ensures { result ≡ fresh_log }
{
    Log {
        readings: 0,
        differing: 0,
        kept: 0,
        entries: [Reading::default(); ENTRIES],
        outputs: [0; OUTPUTS],
    }
}

// Notes a reading in the lent log. A log that is not sound, or whose readings are at their most, is refused and stays as it is.
pub fn update(log: &mut Log, reading: Reading) -> Result<Noted, Refusal>
    ensures { outcome result log.new ≡ update_of log.old reading }
{
    let (noted, after) = step(*log, reading)?;
    *log = after;
    Ok(noted)
}

// The same for a log by value, which is handed back behind the answer.
pub fn updated(mut log: Log, reading: Reading) -> (Result<Noted, Refusal>, Log)
    ensures { outcome result.0 result.1 ≡ update_of log reading }
{
    let answer = update(&mut log, reading);
    (answer, log)
}

// One reading, as the log and the two words decide: what is answered, and the log after it.
#[tactic(auto, using(crate::proofs::Soundness::taken), unfolding(crate::specs::Log::update_of))]
fn step(mut log: Log, reading: Reading) -> Result<(Noted, Log), Refusal>
    ensures { MatchResult result (λ p. outcome (Ok p.0) p.1 ≡ update_of log reading) (λ refusal. outcome (Err refusal) log ≡ update_of log reading) }
{
    log.check()?;
    reading.count(&mut log.outputs);
    log.readings += 1;
    if !reading.differs() {
        return Ok((Noted::Equal, log));
    }
    log.differing += 1;
    let at = log.kept as usize;
    if at == ENTRIES {
        return Ok((Noted::Full, log));
    }
    log.entries[at] = reading;
    log.kept += 1;
    Ok((Noted::Stored, log))
}
