// Files at the limits and one beyond: number, place and character, then the five sizes.
use crate::lamps::Outcome;
use crate::samples::LAMP;
use machine::{COUPLES, STATES};
use specification::BYTES;
use std::io;

pub(crate) fn rows(out: &impl Print) -> io::Result<()> {
    fewest(out)?;
    most(out)?;
    kinds(out)?;
    longest(out)
}

// No room for the contents; then empty bodies; then no states, which passes 1.
fn fewest(out: &impl Print) -> io::Result<()> {
    read(
        out,
        "24 bytes",
        b"SEQ1\x04\x01\x19\x00\x00\x00\x02\x19\x00\x00\x00\x03\x19\x00\x00\x00\x04\x19\x00\x00",
    )?;
    read(
        out,
        "25 bytes, bodies empty",
        b"SEQ1\x04\x01\x19\x00\x00\x00\x02\x19\x00\x00\x00\x03\x19\x00\x00\x00\x04\x19\x00\x00\x00",
    )?;
    read(
        out,
        "29 bytes, no states",
        b"SEQ1\x04\x01\x19\x00\x04\x00\x02\x1d\x00\x00\x00\x03\x1d\x00\x00\x00\x04\x1d\x00\x00\x00\x01\x01\x00\x00",
    )
}

// The lamp with seven inputs more; then states and evolutions with empty conditions, which pass 2 and are refused by 5.
fn most(out: &impl Print) -> io::Result<()> {
    let mut file = LAMP;
    file[25] = 8;
    read(out, "8 inputs", &file)?;
    zeros(
        out,
        "32 states, 992 evolutions, conditions empty",
        b"SEQ1\x04\x01\x19\x00\x04\x00\x02\x1d\x00\x60\x00\x03\x7d\x00\xa0\x0b\x04\x1d\x0c\x00\x00\x01\x01\x20\x00",
        3101,
    )?;
    zeros(
        out,
        "993 evolutions",
        b"SEQ1\x04\x01\x19\x00\x04\x00\x02\x1d\x00\x60\x00\x03\x7d\x00\xa3\x0b\x04\x20\x0c\x00\x00\x01\x01\x20\x00",
        3104,
    )?;
    zeros(
        out,
        "33 states",
        b"SEQ1\x04\x01\x19\x00\x04\x00\x02\x1d\x00\x63\x00\x03\x80\x00\xa0\x0b\x04\x20\x0c\x00\x00\x01\x01\x21\x00",
        3104,
    )
}

// A kind 6 as long as it may be, behind an empty condition that 5 refuses; one byte more, which is refused by 2; and a kind too many.
fn kinds(out: &impl Print) -> io::Result<()> {
    zeros(
        out,
        "kind 6 of 255 bytes, condition empty",
        b"SEQ1\x05\x01\x1e\x00\x04\x00\x02\x22\x00\x03\x00\x03\x25\x00\x00\x00\x04\x25\x00\x00\x00\x06\x25\x00\xff\x00\x01\x01\x01\x00",
        292,
    )?;
    zeros(
        out,
        "kind 6 of 256 bytes",
        b"SEQ1\x05\x01\x1e\x00\x04\x00\x02\x22\x00\x03\x00\x03\x25\x00\x00\x00\x04\x25\x00\x00\x00\x06\x25\x00\x00\x01\x01\x01\x01\x00",
        293,
    )?;
    zeros(
        out,
        "kinds 1 to 7",
        b"SEQ1\x07\x01\x28\x00\x04\x00\x02\x2c\x00\x00\x00\x03\x2c\x00\x00\x00\x04\x2c\x00\x00\x00\x05\x2c\x00\x00\x00\x06\x2c\x00\x00\x00\x07\x2c\x00\x00\x00\x01\x01\x00\x00",
        44,
    )
}

// A kind 4 that no conditions fill, which passes 1 and is refused by 2.
fn longest(out: &impl Print) -> io::Result<()> {
    zeros(
        out,
        "65535 bytes",
        b"SEQ1\x04\x01\x19\x00\x04\x00\x02\x1d\x00\x03\x00\x03\x20\x00\x00\x00\x04\x20\x00\xdf\xff\x01\x01\x01\x00",
        BYTES,
    )?;
    zeros(
        out,
        "65536 bytes",
        b"SEQ1\x04\x01\x19\x00\x04\x00\x02\x1d\x00\x03\x00\x03\x20\x00\x00\x00\x04\x20\x00\xe0\xff\x01\x01\x01\x00",
        BYTES + 1,
    )
}

// A file of so many bytes, at most one more than a file may have: its contents and kind 1, then zeros.
fn zeros(out: &impl Print, what: &str, contents: &[u8], count: usize) -> io::Result<()> {
    let mut file = [0; BYTES + 1];
    if let Some(front) = file.get_mut(..contents.len()) {
        front.copy_from_slice(contents);
    }
    if let Some(file) = file.get(..count) {
        read(out, what, file)?;
    }
    Ok(())
}

fn read(out: &impl Print, what: &str, file: &[u8]) -> io::Result<()> {
    let contents = specification::read_here(file, &mut [7; COUPLES], &mut [7; STATES]);
    println!(out; "{what} | {}", Outcome(contents))
}
