// Files with a kind 5 or 6: the lamp with bytes changed.
use crate::lamps::changed;
use crate::samples::{BOTH_LAMP, RULED_LAMP};
use std::io;

pub(crate) fn rows(out: &impl Print) -> io::Result<()> {
    never(out)?;
    starts(out)?;
    both(out)
}

// The lamp with a kind 5, `a` where nothing else is said.
fn never(out: &impl Print) -> io::Result<()> {
    changed(
        out,
        &RULED_LAMP,
        "
        kind 5:
        kind 5 that holds nowhere: 52'0
        kind 5 that holds everywhere: 52'1
        kind 5 that does not read: 52'+
        kind 5 that is empty: 23=7 26=53 28=0 45=3 50'a 51'+
        kinds 1 2 3 4 4: 25=4
        kinds 1 2 3 5 5: 20=5
        kinds 1 2 3 4 7: 25=7
        count 4 and a fifth entry: 4=4
        count 6: 4=6
        gap before kind 5: 26=53
        kind 5 ends behind the file: 28=2
        5 at record 3 before 5 at kind 5: 50'+ 52'+
        5 at kind 5 before 6: 41=0 52'+
        12 before 13 by kind 5: 47'0 49'0 52'1
        ",
    )
}

// The lamp with a kind 6 alone, `a` where nothing else is said; state 0 rests at setting 0 alone, state 1 at setting 1.
fn starts(out: &impl Print) -> io::Result<()> {
    changed(
        out,
        &RULED_LAMP,
        "
        kind 6 that holds everywhere: 25=6 52'1
        kind 6 !a, state 1 at rest everywhere: 23=5 25=6 26=51 28=2 45=1 48'1 50'0 51'! 52'a
        kind 6 that holds without rest: 25=6
        kind 6 that holds nowhere: 25=6 52'0
        kind 6 that does not read: 25=6 52'+
        kind 6 that is empty: 23=7 25=6 26=53 28=0 45=3 50'a 51'+
        kinds 1 2 3 5 6: 20=5 25=6
        initial 1: 25=6 33=1 52'1
        initial 1, kind 6 a: 25=6 33=1
        ",
    )
}

// The lamp with the kind 5 `a` and the kind 6 `!a` where nothing else is said.
fn both(out: &impl Print) -> io::Result<()> {
    changed(
        out,
        &BOTH_LAMP,
        "
        kinds 5 and 6:
        kind 5 that takes every allowed start: 28=2 31=59 33=1 57'! 58'a 59'1
        kind 6 that does not read, behind kind 5: 59'+
        kind 6 that is empty, behind kind 5: 28=3 31=60 33=0 58'.
        kinds 5 and 6 that do not read: 57'+ 58'+
        kinds 1 2 3 4 5 5: 30=5
        kinds 1 2 3 4 5 7: 30=7
        kinds 1 2 3 4 6 5: 25=6 30=5
        kinds 1 2 3 4 6 6: 25=6
        count 5 and a sixth entry: 4=5
        count 7: 4=7
        gap before kind 6: 31=59
        kind 6 ends behind the file: 33=3
        5 at kind 6 before 6: 46=0 59'+
        12 before 13 by kind 6: 52'0 54'0 59'1
        ",
    )
}
