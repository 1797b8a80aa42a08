// The rows about the bench log: what was done, the answer, then readings, differing and kept; entries, and the outputs' counts.
use crate::lines::{Numbers, Told};
use bench::{ENTRIES, Log, Noted, READINGS, Reading};
use std::ops::RangeInclusive;
use std::{fmt, io};
use verdict::Refusal;

// What an update answers, in a word.
#[derive(Clone, Copy)]
struct Said(Result<Noted, Refusal>);

impl fmt::Display for Said {
    fn fmt<W: fmt::Write>(&self, f: &mut fmt::Formatter<W>) -> fmt::Result {
        match self.0 {
            Ok(Noted::Equal) => write!(f, "equal"),
            Ok(Noted::Stored) => write!(f, "stored"),
            Ok(Noted::Full) => write!(f, "full"),
            Err(refusal) => write!(f, "refused {}", Told(refusal.into())),
        }
    }
}

pub(crate) fn rows(out: &impl Print) -> io::Result<()> {
    let one = differences(out, bench::fresh(), 1..=1)?;
    let five = differences(out, one, 2..=5)?;
    let most_kept = differences(out, five, 6..=32)?;
    let first_full = differences(out, most_kept, 33..=33)?;
    let log = differences(out, first_full, 34..=40)?;
    filled(out, log)?;
    equal_words(out, log)?;
    last_output(out)?;
    unsound(out, log, five)?;
    wrong_outputs(out, log)?;
    few_outputs(out, most_kept, first_full)?;
    most_readings(out, log)
}

// Differences noted in this log, one at each of these changes of run 1: 0 is expected, and the change's number seen.
fn differences(out: &impl Print, mut log: Log, changes: RangeInclusive<u16>) -> io::Result<Log> {
    let last = *changes.end();
    let mut answer = Ok(Noted::Equal);
    for change in changes {
        answer = bench::update(&mut log, given(1, change, 0, change));
    }
    print!(out; "difference {last}")?;
    told(out, answer, log)?;
    Ok(log)
}

// The first and the last entry that 40 differences leave, and the counts.
fn filled(out: &impl Print, log: Log) -> io::Result<()> {
    entry(out, "first entry", log.entries[0])?;
    entry(out, "last entry", log.entries[ENTRIES - 1])?;
    outputs(out, "outputs of 40", log)
}

// Equal words, on a fresh log and on a full one.
fn equal_words(out: &impl Print, full: Log) -> io::Result<()> {
    let equal = given(1, 0, 65535, 65535);
    noted(out, "equal words", bench::fresh(), equal)?;
    noted(out, "equal words, log full", full, given(2, 0, 3, 3))?;
    Ok(())
}

// Words that differ in the last output alone, stored as given.
fn last_output(out: &impl Print) -> io::Result<()> {
    let last = Reading {
        run: 65535,
        change: 65534,
        second: true,
        expected: 0,
        seen: 32768,
    };
    let log = noted(out, "last output differs", bench::fresh(), last)?;
    entry(out, "its entry", log.entries[0])?;
    outputs(out, "its outputs", log)
}

// Logs whose counts or entries are not sound, each in one way.
fn unsound(out: &impl Print, log: Log, five: Log) -> io::Result<()> {
    refusal(out, "kept 31 of 40", with_counts(log, 40, 40, 31), 1)?;
    refusal(out, "kept 33 of 40", with_counts(log, 40, 40, 33), 1)?;
    refusal(out, "kept 5 of 6", with_counts(five, 6, 6, 5), 1)?;
    refusal(out, "differing 41 of 40", with_counts(log, 40, 41, 32), 1)?;
    let mut other = log;
    other.entries[5] = given(1, 6, 6, 6);
    refusal(out, "entry 6 of 40 with equal words", other, 1)
}

// Outputs' counts that are too large, or add up to too little.
fn wrong_outputs(out: &impl Print, log: Log) -> io::Result<()> {
    refusal(out, "output 0 in 41 of 40", with_output(log, 0, 41), 1)?;
    let few = with_outputs(log, 39, 0);
    refusal(out, "outputs add up to 39 of 40", few, 1)?;
    let enough = with_outputs(log, 40, 0);
    taken(out, "outputs add up to 40 of 40", enough)
}

// A count that is not that of the entries: with 32 differences, and with 33.
fn few_outputs(out: &impl Print, most_kept: Log, first_full: Log) -> io::Result<()> {
    let other = with_output(most_kept, 5, 2);
    refusal(out, "output 5 in 2 of 32, not 1", other, 1)?;
    let other = with_output(first_full, 5, 1);
    taken(out, "output 5 in 1 of 33, not 2", other)
}

// Readings one short of their most, and at it; counts that add up to 2 to the 32nd.
fn most_readings(out: &impl Print, log: Log) -> io::Result<()> {
    taken(out, "last reading", with_counts(log, READINGS - 1, 40, 32))?;
    let all = with_counts(log, READINGS - 1, READINGS - 1, 32);
    let many = with_outputs(all, 268435456, 268435456);
    taken(out, "outputs add up to 4294967296", many)?;
    let full = with_counts(log, READINGS, 40, 32);
    refusal(out, "readings at their most", full, 1)?;
    refusal(out, "the same, equal words", full, 0)
}

// A first reading.
fn given(run: u16, change: u16, expected: u16, seen: u16) -> Reading {
    Reading {
        run,
        change,
        second: false,
        expected,
        seen,
    }
}

// The log with other counts of readings.
fn with_counts(log: Log, readings: u32, differing: u32, kept: u32) -> Log {
    Log {
        readings,
        differing,
        kept,
        ..log
    }
}

// The log with another count of one output.
fn with_output(mut log: Log, output: usize, count: u32) -> Log {
    if let Some(there) = log.outputs.get_mut(output) {
        *there = count;
    }
    log
}

// The log with this count of output 0, and that of all others.
fn with_outputs(mut log: Log, first: u32, others: u32) -> Log {
    log.outputs.fill(others);
    log.outputs[0] = first;
    log
}

// A reading of this log, where 0 is expected, and whether it left the log as it was.
fn refusal(out: &impl Print, what: &str, log: Log, seen: u16) -> io::Result<()> {
    let (answer, after) = bench::updated(log, given(3, 1, 0, seen));
    let left = if after == log { "unchanged" } else { "changed" };
    println!(out; "{what} {} {left}", Said(answer))
}

// A difference in output 0 noted in this log, and the counts after it.
fn taken(out: &impl Print, what: &str, log: Log) -> io::Result<()> {
    let after = noted(out, what, log, given(3, 1, 0, 1))?;
    outputs(out, "outputs", after)
}

// A reading noted in this log, and the log after it.
fn noted(out: &impl Print, what: &str, log: Log, reading: Reading) -> io::Result<Log> {
    let (answer, after) = bench::updated(log, reading);
    print!(out; "{what}")?;
    told(out, answer, after)?;
    Ok(after)
}

fn told(out: &impl Print, answer: Result<Noted, Refusal>, log: Log) -> io::Result<()> {
    println!(out;
        " {} {} {} {}",
        Said(answer),
        log.readings,
        log.differing,
        log.kept
    )
}

fn entry(out: &impl Print, what: &str, e: Reading) -> io::Result<()> {
    let which = if e.second { "second" } else { "first" };
    println!(out;
        "{what} {} {} {which} {} {}",
        e.run, e.change, e.expected, e.seen
    )
}

fn outputs(out: &impl Print, what: &str, log: Log) -> io::Result<()> {
    println!(out; "{what} {}", Numbers(&log.outputs))
}
