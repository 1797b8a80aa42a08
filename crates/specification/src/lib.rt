// Reading a specification file (document 01): its checks, its table of moves, its output words, and its evolutions as records.
#![tactic(auto)]

ghost use Rattle.specification.specs.Limits.{most_evolutions};
ghost use Rattle.specification.specs.Reading.{ReadHere, ReadAs};

mod answers;
mod file;
mod frames;
mod handing;
mod reading;
mod records;
mod rules;
mod specification;
mod texts;

use crate::handing::blank;
use crate::reading::read_core;
use evolutions::Evolution;
use machine::Frame;
use verdict::Answer;

// The most evolutions.
pub const EVOLUTIONS: usize = 992;

// The most bytes of a file.
pub const BYTES: usize = 65535;

// The most bytes of a condition.
const TEXT: usize = 255;

// The answer, with 5 the character at which the condition does not read, else 0; and the sizes and frame of the file, all zero on
// refusal. The frame goes to the table jobs as it is.
#[repr(C)]
#[derive(Clone, Copy, Debug, PartialEq, Eq)]
pub struct Contents {
    pub answer: Answer,
    pub character: usize,
    pub outputs: usize,
    pub evolutions: usize,
    pub frame: Frame,
}

// Reads a file: its table of moves, its words and its evolutions, or the first check that fails, at its smallest place.
pub fn read(file: &[u8], table: &mut [u8], words: &mut [u16], records: &mut [Evolution]) -> Contents
    ensures { ReadAs file.now table.old words.old records.old result table.new words.new records.new }
{
    match read_core(file, table, words, records.len()) {
        Ok(reading) => {
            reading.specification.hand_on(records);
            reading.contents()
        }
        Err(refused) => {
            blank(records, refused.blanks);
            refused.contents()
        }
    }
}

// The same for a program that keeps no records, at room for as many as a file may have.
pub fn read_here(file: &[u8], table: &mut [u8], words: &mut [u16]) -> Contents
    ensures { ReadHere file.now table.old words.old most_evolutions result table.new words.new }
{
    match read_core(file, table, words, EVOLUTIONS) {
        Ok(reading) => reading.contents(),
        Err(refused) => refused.contents(),
    }
}
