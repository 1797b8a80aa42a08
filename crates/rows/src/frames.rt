// The rows about the two sets of a frame, the settings that are never used and the allowed starts: what reading answers as them, and
// what the table jobs answer with the frame that reading gave.
use crate::changes::change;
use crate::lines::Numbers;
use crate::machines::Machine;
use crate::samples::{BOTH_LAMP, GATE, LAMP, RULED_GATE, RULED_LAMP};
use machine::{Frame, SETTINGS};
use std::io;

pub(crate) fn rows(out: &impl Print) -> io::Result<()> {
    lamp(out)?;
    gate(out)?;
    files(out)
}

// The lamp without setting 1: its ranks and plan, and runs that use it, first at the start, then in a change.
fn lamp(out: &impl Print) -> io::Result<()> {
    let mut table = [7; 4];
    let mut words = [7; 2];
    let lamp = Machine::read(&RULED_LAMP, &mut table, &mut words);
    both_sets(out, "lamp without a", lamp.frame)?;
    lamp.published(out, "lamp without a", &mut [7; 4], 0)?;
    lamp.planned(out, "lamp without a, plan", &mut [7; 4])?;
    let what = "lamp without a, start at 1";
    lamp.readings(out, what, readings::expected, &[1])?;
    let what = "lamp without a, change to 1";
    lamp.readings(out, what, readings::expected, &[0, 1, 0])?;
    let what = "lamp without a, plan with a change to 1";
    lamp.shortened(out, what, &mut [1, 0, 0, 3, 0, 0, 1, 0])
}

// The gate without the settings at which a and b are both on.
fn gate(out: &impl Print) -> io::Result<()> {
    let mut table = [7; 48];
    let mut words = [7; 3];
    let gate = Machine::read(&RULED_GATE, &mut table, &mut words);
    both_sets(out, "gate without a.b", gate.frame)?;
    gate.published(out, "gate without a.b", &mut [7; 48], 3)
}

// The sets of files with and without kinds 5 and 6; the last lamp is refused by 13.
fn files(out: &impl Print) -> io::Result<()> {
    changed(out, "lamp", &LAMP, "")?;
    changed(out, "lamp, kind 6 1", &RULED_LAMP, "25=6 52'1")?;
    let what = "lamp, 8 inputs, kind 6 h";
    changed(out, what, &RULED_LAMP, "25=6 30=8 52'h")?;
    let what = "lamp, kind 5 !a, kind 6 1, refused";
    changed(out, what, &BOTH_LAMP, "28=2 31=59 33=1 57'! 58'a 59'1")?;
    changed(out, "gate, kind 6 1", &GATE, "")?;
    let what = "gate, kind 5 a, kind 6 c.d";
    let changes = "28=1 31=150 33=3 149'a 150'c 151'. 152'd";
    changed(out, what, &RULED_GATE, changes)
}

// A file with bytes changed.
fn changed<const N: usize>(
    out: &impl Print,
    what: &str,
    file: &[u8; N],
    changes: &str,
) -> io::Result<()> {
    let mut file = *file;
    change(&mut file, changes);
    let mut table = [7; 2 * SETTINGS];
    let mut words = [7; 3];
    let frame = Machine::read(&file, &mut table, &mut words).frame;
    both_sets(out, what, frame)
}

// The words of the settings that are ruled out, and those of the allowed starts.
fn both_sets(out: &impl Print, what: &str, frame: Frame) -> io::Result<()> {
    println!(out; "{what} never {}", Numbers(&frame.never))?;
    println!(out; "{what} starts {}", Numbers(&frame.starts))
}
