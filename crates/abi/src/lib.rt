// What C and Rust link (include/mundrefol.h): thin exports over the proved libraries.
#![tactic(auto)]

ghost use Rattle.std.specs.Prelude.{◌≡◌, true, get_or};
ghost use Rattle.verdict.specs.Checks.{Decides};
ghost use Rattle.machine.specs.Runs.{machine_of, machine_by};
ghost use Rattle.evolutions.specs.Evolutions.{blank, Met};
ghost use Rattle.specification.specs.Reading.{ReadAs};
ghost use Rattle.marking.specs.Marking.{MarkedAs};
ghost use Rattle.plan.specs.Planning.{RunAs, PlannedAs};
ghost use Rattle.plan.specs.Multi.{MultiAs, ListedAs};
ghost use Rattle.shorten.specs.Shortening.{ShortenedAs};
ghost use Rattle.readings.specs.Expected.{ExpectedAs};
ghost use Rattle.bench.specs.Log.{number_of, place_of, kind_of, update_of};
ghost use Rattle.abi.specs.Answers.{outcome_of};

use bench::{Log, Reading};
use evolutions::Evolution;
use machine::Frame;
use specification::Contents;
use verdict::{Answer, Refusal};

// What an update of a log answers: its number and place, and kind 0 for equal, 1 for stored, 2 for full, 3 with a refusal.
#[repr(C)]
#[derive(Clone, Copy, Debug, PartialEq, Eq)]
pub struct Noted {
    pub number: usize,
    pub place: usize,
    pub kind: usize,
}

impl From<Result<bench::Noted, Refusal>> for Noted {
    ghost from_gives = { λ told noted. noted ≡ record { number = number_of told; place = place_of told; kind = kind_of told } };

    fn from(told: Result<bench::Noted, Refusal>) -> Noted {
        let kind = match told {
            Ok(bench::Noted::Equal) => 0,
            Ok(bench::Noted::Stored) => 1,
            Ok(bench::Noted::Full) => 2,
            Err(_) => 3,
        };
        let Answer { number, place } = told.map(|_| ()).into();
        Noted {
            number,
            place,
            kind,
        }
    }
}

// `specification::read`.
#[unsafe(no_mangle)]
pub extern "C" fn mundrefol_read(
    file: &[u8],
    table: &mut [u8],
    words: &mut [u16],
    records: &mut [Evolution],
) -> Contents
    ensures { ReadAs file.now table.old words.old records.old result table.new words.new records.new }
{
    specification::read(file, table, words, records)
}

// `evolutions::evolution_holds`.
#[unsafe(no_mangle)]
pub extern "C" fn mundrefol_evolution_holds(
    records: &[Evolution],
    evolution: usize,
    file: &[u8],
    inputs: usize,
    setting: usize,
) -> bool
    ensures { Decides (Met file.now (get_or records.now evolution blank) inputs setting) result }
{
    evolutions::evolution_holds(records, evolution, file, inputs, setting)
}

// `marking::mark`.
#[unsafe(no_mangle)]
pub extern "C" fn mundrefol_mark(frame: Frame, table: &[u8], ranks: &mut [u16]) -> Answer
    ensures { MarkedAs (machine_of frame table.now) ranks.old result ranks.new }
{
    marking::mark(frame, table, ranks).into()
}

// `plan::run_to`.
#[unsafe(no_mangle)]
pub extern "C" fn mundrefol_run_to(
    frame: Frame,
    table: &[u8],
    ranks: &mut [u16],
    couple: usize,
    run: &mut [u8],
) -> Answer
    ensures { RunAs (machine_of frame table.now) couple ranks.old run.old result ranks.new run.new }
{
    plan::run_to(frame, table, ranks, couple, run).into()
}

// `plan::multi_run_to`.
#[unsafe(no_mangle)]
pub extern "C" fn mundrefol_multi_run_to(
    frame: Frame,
    table: &[u8],
    ranks: &mut [u16],
    couple: usize,
    run: &mut [u8],
) -> Answer
    ensures { MultiAs (machine_by true frame table.now) couple ranks.old run.old result ranks.new run.new }
{
    plan::multi_run_to(frame, table, ranks, couple, run).into()
}

// `plan::plan`.
#[unsafe(no_mangle)]
pub extern "C" fn mundrefol_plan(
    frame: Frame,
    table: &[u8],
    ranks: &mut [u16],
    plan: &mut [u8],
) -> Answer
    ensures { PlannedAs (machine_of frame table.now) ranks.old plan.old result ranks.new plan.new }
{
    plan::plan(frame, table, ranks, plan).into()
}

// `plan::multi_list`.
#[unsafe(no_mangle)]
pub extern "C" fn mundrefol_multi_list(
    frame: Frame,
    table: &[u8],
    ranks: &mut [u16],
    list: &mut [u8],
) -> Answer
    ensures { ListedAs (machine_by true frame table.now) ranks.old list.old result ranks.new list.new }
{
    plan::multi_list(frame, table, ranks, list).into()
}

// `shorten::shorten`.
#[unsafe(no_mangle)]
pub extern "C" fn mundrefol_shorten(frame: Frame, table: &[u8], plan: &mut [u8]) -> Answer
    ensures { ShortenedAs (machine_of frame table.now) plan.old result plan.new }
{
    shorten::shorten(frame, table, plan).into()
}

// `readings::expected`.
#[unsafe(no_mangle)]
pub extern "C" fn mundrefol_expected(
    frame: Frame,
    table: &[u8],
    words: &[u16],
    run: &[u8],
    readings: &mut [u16],
) -> Answer
    ensures { ExpectedAs (machine_of frame table.now) words.now run.now readings.old result readings.new }
{
    readings::expected(frame, table, words, run, readings).into()
}

// `readings::multi_expected`.
#[unsafe(no_mangle)]
pub extern "C" fn mundrefol_multi_expected(
    frame: Frame,
    table: &[u8],
    words: &[u16],
    run: &[u8],
    readings: &mut [u16],
) -> Answer
    ensures { ExpectedAs (machine_by true frame table.now) words.now run.now readings.old result readings.new }
{
    readings::multi_expected(frame, table, words, run, readings).into()
}

// `bench::update`.
#[unsafe(no_mangle)]
pub extern "C" fn mundrefol_update(
    log: &mut Log,
    run: u16,
    change: u16,
    second: bool,
    expected: u16,
    seen: u16,
) -> Noted
    ensures { outcome_of result log.new ≡ update_of log.old (record { run = run; change = change; second = second; expected = expected; seen = seen }) }
{
    let reading = Reading {
        run,
        change,
        second,
        expected,
        seen,
    };
    bench::update(log, reading).into()
}
