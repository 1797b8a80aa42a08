// Prints the sheet of the specification file on standard input, or the line of its refusal.
#![tactic(auto)]

ghost use Rattle.std.specs.Prelude.{true, ◌≤◌, length};
ghost use Rattle.machine.specs.Runs.{machine_by};
ghost use Rattle.show.specs.Sheet.{refusal_text};
ghost use Rattle.show.specs.Written.{Writes};
ghost use Rattle.sheet.specs.Printed.{text_room, SheetOf, PlanText, Prints};
ghost use Rattle.sheet.specs.inner.Steps.{Within, Ready};

use machine::{COUPLES, Frame, STATES};
use plan::{multi_list, plan};
use show::{refusal, sheet};
use specification::read_here;
use std::io;
use std::io::Read;
use verdict::Answer;

// One byte more than a file may have, so that a longer one is noticed.
const FILE: usize = specification::BYTES + 1;

const PLAN: usize = 65536;

const LIST: usize = 65536;

// Room for every text: the first line, a line for each rank, at most 5 letters for each byte of the plan and 4 for each of the list.
const TEXT: usize = 46 + 17 * COUPLES + 5 * PLAN + 4 * LIST;

fn main(rt: HostRuntime) -> io::Result<()> {
    let mut file = [0u8; FILE];
    let length = read_input(&mut rt.stdin(), &mut file)?;
    let mut text = [0u8; TEXT];
    let end = write_sheet(&file[0..length], &mut text);
    rt.write_all(&text[0..end])
}

// Reads the input to its end, or until the buffer is full, and answers how many bytes came.
fn read_input(input: &mut impl Read, file: &mut [u8]) -> io::Result<usize>
    ensures { Within result (length file.new) }
{
    let mut at: usize = 0;
    while at < file.len() {
        let more = read_more(input, &mut file[at..])?;
        if more == 0 {
            return Ok(at);
        }
        at += more;
    }
    Ok(at)
}

// Reads once into the rest of the buffer, and answers how many bytes came.
fn read_more(input: &mut impl Read, rest: &mut [u8]) -> io::Result<usize>
    ensures { Within result (length rest.old) }
{
    input.read(rest)
}

// Writes the text that is printed for a file, and answers how many bytes it has.
fn write_sheet(file: &[u8], text: &mut [u8]) -> usize
    requires { text_room ≤ length text.old }
    ensures { Prints (SheetOf file.now) result text.old text.new }
{
    let mut table = [0u8; COUPLES];
    let mut words = [0u16; STATES];
    let contents = read_here(file, &mut table, &mut words);
    let answer = contents.answer;
    if answer.number != 0 {
        return write_refusal(answer, contents.character, text);
    }
    let frame = contents.frame;
    let couples = frame.states * machine::settings(frame.inputs);
    write_plan(frame, &table[0..couples], text)
}

// Writes the text that is printed for a machine, and answers how many bytes it has.
fn write_plan(frame: Frame, table: &[u8], text: &mut [u8]) -> usize
    requires { Ready (machine_by true frame table.now) (length text.old) }
    ensures { Prints (PlanText (machine_by true frame table.now)) result text.old text.new }
{
    let mut ranks = [0u16; COUPLES];
    let mut runs = [0u8; PLAN];
    let planned = match plan(frame, table, &mut ranks, &mut runs) {
        Ok(planned) => planned,
        Err(refusal) => return write_refusal(refusal.into(), 0, text),
    };
    let mut list = [0u8; LIST];
    let listed = match multi_list(frame, table, &mut ranks, &mut list) {
        Ok(listed) => listed,
        Err(refusal) => return write_refusal(refusal.into(), 0, text),
    };
    let couples = table.len();
    sheet(
        frame.inputs,
        frame.states,
        &ranks[0..couples],
        &runs[0..planned],
        &list[0..listed],
        text,
    )
    .unwrap()
}

// Writes the line of a refusal, and answers how many bytes it has.
fn write_refusal(answer: Answer, character: usize, text: &mut [u8]) -> usize
    requires { text_room ≤ length text.old }
    ensures { Writes (refusal_text answer.number answer.place character) (Ok result) text.old text.new }
{
    refusal(answer.number, answer.place, character, text).unwrap()
}
