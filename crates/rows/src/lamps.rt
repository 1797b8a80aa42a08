// Files read into buffers that were lent, mostly the lamp with bytes changed: number, place and character, the five sizes, then what
// the table and the words hold, 7 before.
use crate::changes::change;
use crate::lines::{Numbers, Told};
use crate::samples::{GATE, LAMP};
use specification::Contents;
use std::{fmt, io};

// What reading a file answers: number, place and character, and behind a bar the sizes.
#[derive(Clone, Copy)]
pub(crate) struct Outcome(pub(crate) Contents);

impl fmt::Display for Outcome {
    fn fmt<W: fmt::Write>(&self, f: &mut fmt::Formatter<W>) -> fmt::Result {
        let contents = self.0;
        let frame = contents.frame;
        write!(f, "{} {}", Told(contents.answer), contents.character)?;
        write!(f, " | {} {}", frame.inputs, contents.outputs)?;
        write!(f, " {} {}", frame.states, frame.initial)?;
        write!(f, " {}", contents.evolutions)
    }
}

pub(crate) fn rows(out: &impl Print) -> io::Result<()> {
    whole(out)?;
    contents(out)?;
    sizes(out)?;
    room(out)?;
    records(out)?;
    rules(out)?;
    order(out)
}

// The lamp and the gate, and the shortest file that reads: one state, at rest at `1`.
fn whole(out: &impl Print) -> io::Result<()> {
    read(out, "lamp file", &LAMP, &mut [7; 5], &mut [7; 3])?;
    read(out, "gate file", &GATE, &mut [7; 49], &mut [7; 4])?;
    read(
        out,
        "gate file without kind 6",
        b"SEQ1\x04\x01\x19\x00\x04\x00\x02\x1d\x00\x09\x00\x03\x26\x00\x12\x00\x04\x38\x00\x53\x00\x04\x02\x03\x00\x00\x00\x0c\x01\x00\x08\x02\x00\x02\x00\x01\x08\x00\x02\x0b\x01\x00\x0c\x01\x02\x0b\x02\x00\x09\x02\x01\x0ac.(b+a)+d.!b!d.!b.!a!c!d.!b.!a!c.(b+!d.a)c.(b+a)+d.!b!c.(b+!d.a)c.(d+b+a)!d.c.!b.!a",
        &mut [7; 49],
        &mut [7; 4],
    )?;
    read(
        out,
        "shortest file",
        b"SEQ1\x04\x01\x19\x00\x04\x00\x02\x1d\x00\x03\x00\x03\x20\x00\x00\x00\x04\x20\x00\x01\x00\x01\x01\x01\x00\x00\x00\x011",
        &mut [7; 3],
        &mut [7; 2],
    )
}

// Refusal 1.
fn contents(out: &impl Print) -> io::Result<()> {
    changed(
        out,
        &LAMP,
        "
        mark: 3'9
        count: 4=5
        kind: 10=3
        first body later: 6=26
        gap: 16=36
        overlap: 16=34
        end before the file's: 23=5
        end behind the file's: 23=7
        kind 1 of 7 bytes: 8=7 11=32 13=3
        kind 2 of 5 bytes, kind 3 of 7: 13=5 16=34 18=7
        offsets that fit modulo 65536: 13=252 14=255 16=25 18=15 21=40 23=7
        ",
    )
}

// Refusal 2, and the sizes beside those that it refuses.
fn sizes(out: &impl Print) -> io::Result<()> {
    changed(
        out,
        &LAMP,
        "
        no inputs: 25=0
        8 inputs, table of 5: 25=8
        9 inputs: 25=9
        no outputs: 26=0
        16 outputs: 26=16
        17 outputs: 26=17
        1 state, kind 2 of 6 bytes: 27=1
        3 states, kind 2 of 6 bytes: 27=3
        initial 1, no start without kind 6: 28=1
        initial 2: 28=2
        conditions of 7 bytes, kind 4 of 6: 31=3
        ",
    )
}

// Refusal 3.
fn room(out: &impl Print) -> io::Result<()> {
    read(out, "table of 3", &LAMP, &mut [7; 3], &mut [7; 2])?;
    read(out, "words of 1", &LAMP, &mut [7; 4], &mut [7; 1])?;
    let what = "table of 3, words of 1";
    read(out, what, &LAMP, &mut [7; 3], &mut [7; 1])
}

// Refusals 4 to 7.
fn records(out: &impl Print) -> io::Result<()> {
    changed(
        out,
        &LAMP,
        "
        output bit 1 of 1: 32=2
        output bit 8 of 1: 30=1
        source 2 of 2: 38=2
        target 255 of 2: 36=255
        condition +a: 41'+
        condition !b with 1 input: 46'b
        empty condition: 34=0 37=2
        own source: 36=0
        same source and target: 38=0 39=1
        ",
    )
}

// Refusals 8 to 13.
fn rules(out: &impl Print) -> io::Result<()> {
    changed(
        out,
        &LAMP,
        "
        rest !0 and a: 42'0
        rest !1 and a: 42'1
        rest 0 and !a: 43'0
        transient: 43'0 46'0
        same word: 32=0
        never reached: 42'0 44'0
        no start: 42'1 43'1 44'1 46'1
        ",
    )
}

// Two faults in one file: each check runs over the whole of it before the next.
fn order(out: &impl Print) -> io::Result<()> {
    changed(
        out,
        &LAMP,
        "
        1 before 2: 3'9 25=9
        2 before 4: 28=2 32=2
        4 at record 3 before 5 at record 0: 39=9 41'+
        5 at record 3 before 6 at record 2: 36=0 45'+
        6 before 7: 36=0 38=0 39=0
        7 before 8: 38=0 39=1 46'0
        8 at couple 3 before 9 at couple 0: 42'1 46'0
        9 before 11: 32=0 43'0
        10 before 11: 32=0 43'0 46'0
        11 before 12: 32=0 42'0 44'0
        ",
    )?;
    read(
        out,
        "12 before 13",
        b"SEQ1\x04\x01\x19\x00\x04\x00\x02\x1d\x00\x09\x00\x03\x26\x00\x03\x00\x04\x29\x00\x04\x00\x01\x02\x03\x00\x00\x00\x01\x01\x00\x01\x02\x00\x01\x00\x01\x010111",
        &mut [7; 7],
        &mut [7; 4],
    )
}

// A file with bytes changed, into more room than the lamp needs, a row to a line of the text: its name, a colon, then the changes. A line
// with no colon is no row.
pub(crate) fn changed<const N: usize>(
    out: &impl Print,
    file: &[u8; N],
    rows: &str,
) -> io::Result<()> {
    for row in rows.lines() {
        if let Some((what, changes)) = row.split_once(':') {
            let mut file = *file;
            change(&mut file, changes);
            read(out, what.trim_start(), &file, &mut [7; 5], &mut [7; 3])?;
        }
    }
    Ok(())
}

pub(crate) fn read(
    out: &impl Print,
    what: &str,
    file: &[u8],
    table: &mut [u8],
    words: &mut [u16],
) -> io::Result<()> {
    let contents = specification::read_here(file, table, words);
    println!(out;
        "{what} | {} {} {}",
        Outcome(contents),
        Numbers(table),
        Numbers(words)
    )
}
