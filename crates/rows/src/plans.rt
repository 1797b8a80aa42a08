// The rows about runs: the answer, then what the buffers hold that were lent, 7 before.
use crate::lines::{Numbers, Told, answered};
use crate::machines::{Machine, gate, lamp};
use machine::Frame;
use std::{fmt, io};
use verdict::Refusal;

pub(crate) fn rows(out: &impl Print) -> io::Result<()> {
    lamp().planned(out, "lamp plan", &mut [7; 13])?;
    lamp().planned(out, "lamp plan into 11 bytes", &mut [7; 11])?;
    gate_runs(out)?;
    lamp_readings(out)?;
    let what = "gate two inputs changed";
    gate().readings(out, what, readings::expected, &[8, 10, 12])
}

// Runs to couples of the gate.
fn gate_runs(out: &impl Print) -> io::Result<()> {
    let gate = gate();
    gate.run_to(out, "gate run to 44", plan::run_to, 44, &mut [7; 5])?;
    let what = "gate run to 44 into 3 bytes";
    gate.run_to(out, what, plan::run_to, 44, &mut [7; 3])?;
    gate.run_to(out, "gate run to 48", plan::run_to, 48, &mut [7; 5])?;
    gate.run_to(out, "gate run to 19", plan::run_to, 19, &mut [7; 5])
}

// Expected readings, lists of settings that start no run, and lists that start one and do not go on with it; with both settings as allowed
// starts, so that a first one is refused for want of rest.
fn lamp_readings(out: &impl Print) -> io::Result<()> {
    let lists: [(&str, &[u8]); 5] = [
        ("lamp readings of run 3", &[0, 1, 0]),
        ("lamp empty run", &[]),
        ("lamp first setting without rest", &[1, 0]),
        ("lamp setting too large", &[0, 1, 3]),
        ("lamp no input changed", &[0, 1, 1]),
    ];
    let lamp = lamp().started([3, 0, 0, 0]);
    for (what, run) in lists {
        lamp.readings(out, what, readings::expected, run)?;
    }
    Ok(())
}

impl Machine<'_> {
    // The plan, behind the ranks.
    pub(crate) fn planned(self, out: &impl Print, what: &str, room: &mut [u8]) -> io::Result<()> {
        let mut ranks = [7; 5];
        let told = plan::plan(self.frame, self.table, &mut ranks, room);
        println!(out;
            "{what} | {} {} {}",
            Told(told.into()),
            Numbers(&ranks),
            Numbers(room)
        )
    }

    // The run to a couple, by single changes or by multiple ones.
    pub(crate) fn run_to<
        F: Fn(Frame, &[u8], &mut [u16], usize, &mut [u8]) -> Result<usize, Refusal>,
    >(
        self,
        out: &impl Print,
        what: impl fmt::Display + Drop,
        run_to: F,
        couple: usize,
        room: &mut [u8],
    ) -> io::Result<()>
        requires { F.IsAlwaysCallable run_to }
    {
        let told = run_to(self.frame, self.table, &mut [7; 48], couple, room);
        answered(out, what, told, room)
    }

    // The expected readings of a list of settings, likewise.
    pub(crate) fn readings<
        F: Fn(Frame, &[u8], &[u16], &[u8], &mut [u16]) -> Result<usize, Refusal>,
    >(
        self,
        out: &impl Print,
        what: impl fmt::Display + Drop,
        expected: F,
        run: &[u8],
    ) -> io::Result<()>
        requires { F.IsAlwaysCallable expected }
    {
        let mut readings = [7; 6];
        let told = expected(self.frame, self.table, self.words, run, &mut readings);
        answered(out, what, told, &readings)
    }
}
