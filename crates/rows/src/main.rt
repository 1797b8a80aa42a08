// The example rows of document 01 that are not starred, the tables that were published, and files of each refusal, one line a row: a
// short name of the row, then its numbers.
#![tactic(auto)]

mod apart;
mod changes;
mod conditions;
mod frames;
mod lamps;
mod limits;
mod lines;
mod log;
mod machines;
mod multi;
mod optional;
mod plans;
mod ranks;
mod records;
mod rests;
mod samples;
mod shorter;
mod starts;

use std::io;

fn main(rt: HostRuntime) -> io::Result<()> {
    let out = &rt;
    conditions::rows(out)?;
    files(out)?;
    log::rows(out)?;
    ranks::rows(out)?;
    plans::rows(out)?;
    shorter::rows(out)?;
    frames::rows(out)?;
    starts::rows(out)?;
    multi::runs(out)?;
    apart::rows(out)?;
    multi::readings(out)
}

// Reading a file.
fn files(out: &impl Print) -> io::Result<()> {
    lamps::rows(out)?;
    optional::rows(out)?;
    rests::rows(out)?;
    limits::rows(out)?;
    records::rows(out)
}
