// The evolutions of a file as records, and whether the condition of one holds (document 01, "Specification file").
#![tactic(auto)]

ghost use Rattle.std.specs.Prelude.{◌≡◌, get_or};
ghost use Rattle.verdict.specs.Checks.{Decides};
ghost use Rattle.evolutions.specs.Evolutions.{blank, Met};

use condition::holds;

// An evolution: its source and target, the place in the file and the length of its condition.
#[repr(C)]
#[derive(Clone, Copy, Debug, Default, PartialEq, Eq)]
pub struct Evolution {
    pub source: u8,
    pub target: u8,
    pub at: u16,
    pub length: u8,
}

impl Evolution {
    // Whether its condition, within the file, holds at the setting.
    fn met(self, file: &[u8], inputs: usize, setting: usize) -> bool
        ensures { Decides (Met file.now self inputs setting) result }
    {
        let at = usize::from(self.at);
        file.get(at..at + usize::from(self.length))
            .is_some_and(|text| holds(text, inputs, setting))
    }
}

// Whether the condition of evolution e of a file that was read holds at the setting; beyond the records none does.
pub fn evolution_holds(
    records: &[Evolution],
    e: usize,
    file: &[u8],
    inputs: usize,
    setting: usize,
) -> bool
    ensures { Decides (Met file.now (get_or records.now e blank) inputs setting) result }
{
    let evolution = records.get(e).copied().unwrap_or_default();
    evolution.met(file, inputs, setting)
}
