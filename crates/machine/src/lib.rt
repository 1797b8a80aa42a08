// The frame of a machine, its largest sizes and their test. The definitions of machines and runs stand in specs/, their laws in proofs/.
#![tactic(auto)]

ghost use Rattle.std.specs.Prelude.{◌≡◌, ◌<◌, ◌≤◌, ◌^◌};
ghost use Rattle.verdict.specs.Checks.{Decides};
ghost use Rattle.machine.specs.Limits.{most_inputs, most_settings, Sized};
ghost use Rattle.machine.specs.Runs.{usable as isUsable, startable as isStartable};

use sets::WORDS;

// What a table job is told beside the table: the sizes, the set of the settings that are ruled out, and that of the allowed starts.
#[repr(C)]
#[derive(Clone, Copy, Debug, PartialEq, Eq)]
pub struct Frame {
    pub inputs: usize,
    pub states: usize,
    pub initial: usize,
    pub never: [u64; WORDS],
    pub starts: [u64; WORDS],
}

// Inputs.
pub const INPUTS: usize = 8;

// States.
pub const STATES: usize = 32;

// Settings of as many inputs.
pub const SETTINGS: usize = 1 << INPUTS;

// Couples of as many states and settings.
pub const COUPLES: usize = STATES * SETTINGS;

// What a rank buffer holds for a couple that no run visits.
pub const UNMARKED: u16 = 65535;

// How many settings there are, at most as many inputs as a machine may have; 0 for more.
pub fn settings(inputs: usize) -> usize
    ensures few { (inputs ≤ most_inputs → result ≡ 2 ^ inputs) × (result ≤ most_settings) }
    ensures many { most_inputs < inputs → result ≡ 0 }
{
    if inputs <= INPUTS { 1 << inputs } else { 0 }
}

impl Frame {
    // Whether the sizes are in their ranges: otherwise refusal 2.
    pub fn sized(self) -> bool
        ensures { Decides (Sized self.inputs self.states self.initial) result }
    {
        (1..=INPUTS).contains(&self.inputs) && self.states <= STATES && self.initial < self.states
    }

    // Whether a run may use a setting: the frame does not rule it out.
    pub fn usable(self, setting: usize) -> bool
        ensures { result ≡ isUsable self setting }
    {
        !sets::has(self.never, setting)
    }

    // Whether a run may start at a setting: it is an allowed start, and the frame does not rule it out.
    pub fn startable(self, setting: usize) -> bool
        ensures { result ≡ isStartable self setting }
    {
        sets::has(self.starts, setting) && self.usable(setting)
    }
}
