// The rows about shortened plans: the answer, then every byte of the plan that was lent.
use crate::lines::answered;
use crate::machines::{Machine, gate, lamp, wrong_lamps};
use std::{fmt, io};

pub(crate) fn rows(out: &impl Print) -> io::Result<()> {
    lamp_plans(out)?;
    wrong_plans(out)?;
    for (fault, machine) in wrong_lamps() {
        machine.shortened(out, format_args!("shortening, {fault}"), &mut [1, 0, 0])?;
    }
    gate_plan(out)
}

// Plans of the lamp that are shortened, and those that need not be.
fn lamp_plans(out: &impl Print) -> io::Result<()> {
    let lamp = lamp();
    let mut whole = [1, 0, 0, 2, 0, 0, 1, 3, 0, 0, 1, 0];
    lamp.shortened(out, "lamp plan shortened", &mut whole)?;
    let mut twice = [3, 0, 0, 1, 0, 3, 0, 0, 1, 0];
    lamp.shortened(out, "lamp run twice", &mut twice)?;
    let what = "lamp run that an earlier one makes superfluous";
    lamp.shortened(out, what, &mut [3, 0, 0, 1, 0, 1, 0, 0])?;
    lamp.shortened(out, "lamp run alone", &mut [2, 0, 0, 1])?;
    lamp.shortened(out, "lamp empty plan", &mut [])
}

// Bytes that do not split into runs, and runs that 17 would refuse.
fn wrong_plans(out: &impl Print) -> io::Result<()> {
    let lamp = lamp();
    let what = "lamp stored run of no settings";
    lamp.shortened(out, what, &mut [1, 0, 0, 0, 0])?;
    let what = "lamp last run cut";
    lamp.shortened(out, what, &mut [1, 0, 0, 3, 0, 0, 1])?;
    let what = "lamp last run cut behind a run that starts nowhere";
    lamp.shortened(out, what, &mut [1, 0, 0, 1, 0, 1, 3, 0, 0, 1])?;
    let what = "lamp one byte of a count";
    lamp.shortened(out, what, &mut [1, 0, 0, 1])?;
    let what = "lamp run with a setting too large";
    lamp.shortened(out, what, &mut [2, 0, 0, 2])
}

// The plan of the gate, 131 bytes.
fn gate_plan(out: &impl Print) -> io::Result<()> {
    let gate = gate();
    let mut plan = [7; 131];
    let _ = plan::plan(gate.frame, gate.table, &mut [7; 48], &mut plan);
    gate.shortened(out, "gate plan shortened", &mut plan)
}

impl Machine<'_> {
    // A plan, shortened in place.
    pub(crate) fn shortened(
        self,
        out: &impl Print,
        what: impl fmt::Display + Drop,
        plan: &mut [u8],
    ) -> io::Result<()> {
        let told = shorten::shorten(self.frame, self.table, plan);
        answered(out, what, told, plan)
    }
}
