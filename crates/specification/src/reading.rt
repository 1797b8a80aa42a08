// Reading a file whole: the checks in their order, the table and the words.
ghost use Rattle.std.specs.Prelude.{◌≡◌, Ok, ◌≤◌, length, IfOk};
ghost use Rattle.verdict.specs.Checks.{Passed, Judged};
ghost use Rattle.verdict.specs.Refusals.{verdict_of};
ghost use Rattle.verdict.specs.Buffers.{Filled};
ghost use Rattle.tables.specs.Tables.{machine_in};
ghost use Rattle.specification.specs.Limits.{blank_move, blank_word};
ghost use Rattle.specification.specs.Records.{settings, couples, word as word_of};
ghost use Rattle.specification.specs.Rules.{MoveAt, FrameOf};
ghost use Rattle.specification.specs.Reading.{shape_checks};
ghost use Rattle.specification.specs.inner.Private.{filled_checks, sound_checks, SoundAs};
ghost use Rattle.specification.specs.inner.Outcomes.{CoreAs};

use crate::answers::{Reading, Refused};
use crate::file::Formed;
use crate::records::Records;
use crate::rules::BLANK_MOVE;
use crate::specification::Specification;
use crate::texts::Texts;
use machine::Frame;
use tables::Job;
use tables::jobs::SizedJob;
use verdict::{Refusal, Room, check_rooms};

// What the words hold after a refusal.
const BLANK_WORD: u16 = 65535;

// Refusals 1, 2 and 3.
fn check_shape<'a>(
    file: &'a [u8],
    table: usize,
    words: usize,
    records: usize,
) -> Result<Specification<'a>, Refusal>
    ensures judged { Judged (shape_checks file.now table words records) Passed (verdict_of result) }
    ensures file { IfOk result (λ specification. specification.file.now ≡ file.now) }
{
    let specification = Formed::check(file)?.check_sizes()?;
    check_rooms(
        Room {
            needed: specification.couples(),
            has: table,
        },
        Room {
            needed: specification.z.states,
            has: words,
        },
        Room {
            needed: specification.z.evolutions,
            has: records,
        },
    )?;
    Ok(specification)
}

fn fill_words(specification: Specification, words: &mut [u16])
    requires { specification.z.states ≤ length words.old }
    ensures { Filled specification.entry.z.states (λ s w. w ≡ word_of specification.entry.file.now specification.entry.z s) words.old words.new }
{
    let records = Records {
        file: specification.file,
        z: specification.z,
    };
    for (s, word) in words[..specification.z.states].iter_mut().enumerate() {
        *word = records.word(s);
    }
}

// Refusals 9 to 13: those of the filled table and words, a blank being no state.
fn check_moves(sized: SizedJob, words: &[u16]) -> Result<(), Refusal>
    requires { sized.job.frame.states ≤ length words.now }
    ensures { Judged (filled_checks (machine_in sized.entry.job) words.now) Passed (verdict_of result) }
{
    let Err(refusal) = sized.job.check_sound(words) else {
        return Ok(());
    };
    match refusal {
        Refusal::Beyond(couple) => Err(Refusal::NoRule(couple)),
        other => Err(other),
    }
}

// Refusals 4 to 13. On success the table and the words are filled; after a refusal their needed elements may be anything.
fn settle(
    specification: Specification,
    frame: Frame,
    table: &mut [u8],
    words: &mut [u16],
) -> Result<(), Refusal>
    requires { FrameOf specification.file.now specification.z frame × (couples specification.z ≤ length table.old) × (specification.z.states ≤ length words.old) }
    ensures judged { Judged (sound_checks specification.entry.file.now specification.entry.z) Passed (verdict_of result) }
    ensures table { Filled (couples specification.entry.z) (λ p x. IfOk result (λ _. MoveAt specification.entry.file.now specification.entry.z (settings specification.entry.z) p x)) table.old table.new }
    ensures words { Filled specification.entry.z.states (λ s w. IfOk result (λ _. w ≡ word_of specification.entry.file.now specification.entry.z s)) words.old words.new }
{
    let places = specification.places();
    let texts = Texts {
        file: specification.file,
        z: specification.z,
        places: &places,
    };
    texts.check_records()?;
    fill_words(specification, words);
    let records = Records {
        file: specification.file,
        z: specification.z,
    };
    let next = records.next_rules();
    if let Some(couple) = texts.fill_moves(&next, table) {
        return Err(Refusal::TwoRules(couple));
    }
    let job = Job::single(frame, table);
    check_moves(SizedJob { job }, words)
}

fn blank_table(table: &mut [u8], count: usize)
    requires { count ≤ length table.old }
    ensures { Filled count (λ p x. x ≡ blank_move) table.old table.new }
{
    table[..count].fill(BLANK_MOVE);
}

fn blank_words(words: &mut [u16], count: usize)
    requires { count ≤ length words.old }
    ensures { Filled count (λ p x. x ≡ blank_word) words.old words.new }
{
    words[..count].fill(BLANK_WORD);
}

// Refusals 4 to 13, and the table and the words as they are left.
fn read_sound(
    specification: Specification,
    frame: Frame,
    table: &mut [u8],
    words: &mut [u16],
) -> Result<(), Refusal>
    requires { FrameOf specification.file.now specification.z frame × (couples specification.z ≤ length table.old) × (specification.z.states ≤ length words.old) }
    ensures { SoundAs specification.entry.file.now specification.entry.z table.old words.old (verdict_of result) table.new words.new }
{
    match settle(specification, frame, table, words) {
        Ok(()) => Ok(()),
        Err(refusal) => {
            blank_table(table, specification.couples());
            blank_words(words, specification.z.states);
            Err(refusal)
        }
    }
}

// Reads a file at room for so many records: its table of moves and its words, or the first check that fails, at its smallest place.
pub(crate) fn read_core<'a>(
    file: &'a [u8],
    table: &mut [u8],
    words: &mut [u16],
    records: usize,
) -> Result<Reading<'a>, Refused>
    ensures { CoreAs file.now table.old words.old records result table.new words.new }
{
    let specification = match check_shape(file, table.len(), words.len(), records) {
        Ok(specification) => specification,
        Err(refusal) => {
            return Err(Refused {
                refusal,
                character: 0,
                blanks: 0,
            });
        }
    };
    let frame = specification.frame();
    match read_sound(specification, frame, table, words) {
        Ok(()) => Ok(Reading {
            specification,
            frame,
        }),
        Err(refusal) => Err(Refused {
            refusal,
            character: specification.character(refusal),
            blanks: specification.z.evolutions,
        }),
    }
}
