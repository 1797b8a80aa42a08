// The rows about runs that may change several inputs at once: the answer, then what the buffers hold that were lent, 7 before.
use crate::machines::{Machine, gate, ruled_gate};
use crate::ranks::counted;
use plan::{multi_run_to, run_to};
use readings::{expected, multi_expected};
use sets::WORDS;
use std::io;

pub(crate) fn runs(out: &impl Print) -> io::Result<()> {
    gate_runs(out)?;
    gate_ranks(out)?;
    ruled_gate_runs(out)
}

// The couples of the gate that no single changes visit; a marked couple, no couple, buffers one byte short, and another start.
fn gate_runs(out: &impl Print) -> io::Result<()> {
    let gate = gate();
    for couple in [19, 23, 25, 26, 27, 29, 30, 31, 44, 48] {
        let what = format_args!("gate multi run to {couple}");
        gate.run_to(out, what, multi_run_to, couple, &mut [7; 5])?;
    }
    let what = "gate multi run to 19 into 2 bytes";
    gate.run_to(out, what, multi_run_to, 19, &mut [7; 2])?;
    let what = "gate multi run to 44 into 3 bytes";
    gate.run_to(out, what, multi_run_to, 44, &mut [7; 3])?;
    let from_5 = gate.started(sets::with([0; WORDS], 5));
    let what = "gate from 5, multi run to 19";
    from_5.run_to(out, what, multi_run_to, 19, &mut [7; 5])
}

// The ranks after a run, after 14, after 20 and after 16.
fn gate_ranks(out: &impl Print) -> io::Result<()> {
    let what = "gate after the multi run to 19";
    gate().ranks_after(out, what, 19, &mut [7; 3])?;
    gate().ranks_after(out, "gate after 14", 48, &mut [7; 3])?;
    let what = "gate without a.b after 20";
    ruled_gate().ranks_after(out, what, 19, &mut [7; 3])?;
    gate().ranks_after(out, "gate after 16", 19, &mut [7; 2])
}

// A couple that kind 5 keeps from every run, and one that it does not; each first asked for by single changes.
fn ruled_gate_runs(out: &impl Print) -> io::Result<()> {
    let gate = ruled_gate();
    let what = "gate without a.b, run to 19";
    gate.run_to(out, what, run_to, 19, &mut [7; 5])?;
    let what = "gate without a.b, multi run to 19";
    gate.run_to(out, what, multi_run_to, 19, &mut [7; 5])?;
    let what = "gate without a.b, multi run to 19 into 0 bytes";
    gate.run_to(out, what, multi_run_to, 19, &mut [])?;
    let what = "gate without a.b, run to 25";
    gate.run_to(out, what, run_to, 25, &mut [7; 5])?;
    let what = "gate without a.b, multi run to 25";
    gate.run_to(out, what, multi_run_to, 25, &mut [7; 5])
}

// Expected readings, beside those of single changes.
pub(crate) fn readings(out: &impl Print) -> io::Result<()> {
    let lists: [(&str, &[u8]); 3] = [("8 0 3", &[8, 0, 3]), ("8 3", &[8, 3]), ("8 8", &[8, 8])];
    for (list, run) in lists {
        let what = format_args!("gate readings of {list}");
        gate().readings(out, what, expected, run)?;
        let what = format_args!("gate multi readings of {list}");
        gate().readings(out, what, multi_expected, run)?;
    }
    no_runs(out)
}

// Lists of settings that are no run, however many inputs may change at once.
fn no_runs(out: &impl Print) -> io::Result<()> {
    let lists: [(&str, &[u8]); 3] = [("8 16", &[8, 16]), ("0 3", &[0, 3]), ("no settings", &[])];
    for (list, run) in lists {
        let what = format_args!("gate multi readings of {list}");
        gate().readings(out, what, multi_expected, run)?;
    }
    let what = "gate without a.b, multi readings of 8 0 3";
    ruled_gate().readings(out, what, multi_expected, &[8, 0, 3])?;
    let what = "gate without a.b, multi readings of 7 0";
    ruled_gate().readings(out, what, multi_expected, &[7, 0])
}

impl Machine<'_> {
    // The counts of the ranks that the run to a couple leaves, whatever it answers.
    fn ranks_after(
        self,
        out: &impl Print,
        what: &str,
        couple: usize,
        room: &mut [u8],
    ) -> io::Result<()> {
        let mut ranks = [7; 48];
        let _ = multi_run_to(self.frame, self.table, &mut ranks, couple, room);
        counted(out, what, &ranks, 3)
    }
}
