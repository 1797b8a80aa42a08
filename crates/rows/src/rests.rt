// Files without rest conditions: a state rests where no evolution from it holds.
use crate::lamps::{changed, read};
use std::io;

pub(crate) fn rows(out: &impl Print) -> io::Result<()> {
    lamps(out)?;
    few_evolutions(out)?;
    papers(out)
}

// The lamp, with bytes changed; and the lamp with each rest condition written as the negated sum of the state's evolution conditions.
fn lamps(out: &impl Print) -> io::Result<()> {
    changed(
        out,
        b"SEQ2\x04\x01\x19\x00\x04\x00\x02\x1d\x00\x06\x00\x03\x23\x00\x06\x00\x04\x29\x00\x03\x00\x01\x01\x02\x00\x00\x00\x00\x01\x00\x00\x00\x01\x01\x01\x00\x02a!a",
        "
        lamp without rests:
        SEQ3: 3'3
        SEQ1 with empty rest conditions: 3'1
        length of a rest condition, lengths sum to kind 4: 31=1 37=0
        length of a rest condition before 4: 31=1 32=2
        without rests, 5 at record 2: 41'b
        without rests, 6: 36=0
        without rests, 10: 41'1
        without rests, 11: 32=0
        without rests, 12: 41'0
        without rests, 13: 28=1
        ",
    )?;
    changed(
        out,
        b"SEQ1\x04\x01\x19\x00\x04\x00\x02\x1d\x00\x06\x00\x03\x23\x00\x06\x00\x04\x29\x00\x0c\x00\x01\x01\x02\x00\x00\x00\x04\x01\x00\x05\x00\x01\x01\x01\x00\x02!(a)!(!a)a!a",
        "lamp with negated sums:",
    )?;
    changed(
        out,
        b"SEQ2\x06\x01\x23\x00\x04\x00\x02\x27\x00\x06\x00\x03\x2d\x00\x06\x00\x04\x33\x00\x03\x00\x05\x36\x00\x01\x00\x06\x37\x00\x02\x00\x01\x01\x02\x00\x00\x00\x00\x01\x00\x00\x00\x01\x01\x01\x00\x02a!aa!a",
        "
        lamp without rests, kinds 5 and 6:
        without rests, 5 at kind 5: 54'+
        ",
    )
}

// A state without evolutions; the shortest file, one state at rest everywhere; and two evolutions that hold at couple 1.
fn few_evolutions(out: &impl Print) -> io::Result<()> {
    read(
        out,
        "state without evolutions",
        b"SEQ2\x04\x01\x19\x00\x04\x00\x02\x1d\x00\x06\x00\x03\x23\x00\x03\x00\x04\x26\x00\x01\x00\x01\x01\x02\x00\x00\x00\x00\x01\x00\x00\x00\x01\x01a",
        &mut [7; 5],
        &mut [7; 3],
    )?;
    read(
        out,
        "no evolutions",
        b"SEQ2\x04\x01\x19\x00\x04\x00\x02\x1d\x00\x03\x00\x03\x20\x00\x00\x00\x04\x20\x00\x00\x00\x01\x01\x01\x00\x00\x00\x00",
        &mut [7; 3],
        &mut [7; 2],
    )?;
    read(
        out,
        "two evolutions hold",
        b"SEQ2\x04\x01\x19\x00\x04\x00\x02\x1d\x00\x09\x00\x03\x26\x00\x06\x00\x04\x2c\x00\x02\x00\x01\x02\x03\x00\x00\x00\x00\x01\x00\x00\x02\x00\x00\x00\x01\x01\x00\x02\x01a1",
        &mut [7; 7],
        &mut [7; 4],
    )
}

// The gate, to the table that it has with rest conditions; and source document 000's automaton, to its table 3.
fn papers(out: &impl Print) -> io::Result<()> {
    read(
        out,
        "gate without rests",
        b"SEQ2\x05\x01\x1e\x00\x04\x00\x02\x22\x00\x09\x00\x03\x2b\x00\x12\x00\x04\x3d\x00\x3d\x00\x06\x7a\x00\x01\x00\x04\x02\x03\x00\x00\x00\x00\x01\x00\x00\x02\x00\x00\x00\x01\x08\x00\x02\x0b\x01\x00\x0c\x01\x02\x0b\x02\x00\x09\x02\x01\x0a!d.!b.!a!c.(b+!d.a)c.(b+a)+d.!b!c.(b+!d.a)c.(d+b+a)!d.c.!b.!a1",
        &mut [7; 49],
        &mut [7; 4],
    )?;
    read(
        out,
        "table 3",
        b"SEQ2\x05\x01\x1e\x00\x04\x00\x02\x22\x00\x12\x00\x03\x34\x00\x18\x00\x04\x4c\x00\x2c\x00\x06\x78\x00\x01\x00\x03\x03\x06\x00\x00\x00\x00\x01\x00\x00\x06\x00\x00\x03\x00\x00\x05\x00\x00\x04\x00\x00\x00\x01\x06\x00\x02\x0a\x01\x00\x07\x02\x03\x06\x02\x04\x06\x03\x05\x01\x04\x05\x01\x05\x00\x07!a.b.c!a.(!b+!c)a.!b.!ca.!b.ca.b.!cbca.!b.!c1",
        &mut [7; 49],
        &mut [7; 7],
    )
}
