// The rows about marking: the ranks a line a state, as the published tables have them, then the counts.
use crate::lines::{Numbers, Told, answered};
use crate::machines::{Machine, gate, table_iv, wrong_lamps};
use machine::UNMARKED;
use std::{fmt, io};

pub(crate) fn rows(out: &impl Print) -> io::Result<()> {
    // Source document 002, table 2.
    gate().published(out, "gate", &mut [7; 48], 3)?;
    table_iv().published(out, "table IV", &mut [7; 40], 5)?;
    for (fault, machine) in wrong_lamps() {
        machine.marked(out, format_args!("marking, {fault}"))?;
    }
    Ok(())
}

impl Machine<'_> {
    // The answer of marking, the ranks of each state, and their counts up to the highest.
    pub(crate) fn published(
        self,
        out: &impl Print,
        what: &str,
        ranks: &mut [u16],
        highest: u16,
    ) -> io::Result<()> {
        let told = Told(marking::mark(self.frame, self.table, ranks).into());
        println!(out; "{what} | {told}")?;
        // No settings for too many inputs.
        let settings = machine::settings(self.frame.inputs).max(1);
        for (state, ranks) in ranks.chunks_exact(settings).enumerate() {
            println!(out; "{what} state {state} {}", Numbers(ranks))?;
        }
        counted(out, what, ranks, highest)
    }

    // The answer of marking, and what the ranks hold, 7 before.
    pub(crate) fn marked(self, out: &impl Print, what: impl fmt::Display + Drop) -> io::Result<()> {
        let mut ranks = [7; 5];
        let told = marking::mark(self.frame, self.table, &mut ranks);
        answered(out, what, told, &ranks)
    }
}

// How many couples are marked, how many there are, and how many have rank 0, 1 and so on to the highest; then those that no run visits.
pub(crate) fn counted(out: &impl Print, what: &str, ranks: &[u16], highest: u16) -> io::Result<()> {
    let marked = ranks.iter().filter(|&&rank| rank != UNMARKED).count();
    print!(out; "{what} marked couples | {marked} {} |", ranks.len())?;
    for wanted in 0..=highest {
        let count = ranks.iter().filter(|&&rank| rank == wanted).count();
        print!(out; " {count}")?;
    }
    print!(out; "\n{what} unmarked |")?;
    for (couple, &rank) in ranks.iter().enumerate() {
        if rank == UNMARKED {
            print!(out; " {couple}")?;
        }
    }
    println!(out;)
}
