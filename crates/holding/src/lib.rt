// The settings at which a condition holds, as a set.
#![tactic(auto)]

ghost use Rattle.std.specs.Prelude.{◌^◌, ◌≤◌, ◌<◌};
ghost use Rattle.sets.specs.Sets.{words, SetOf};
ghost use Rattle.machine.specs.Limits.{most_inputs};
ghost use Rattle.condition.specs.Condition.{Holds};

use condition::holds;
use machine::settings;
use sets::WORDS;

// The settings of so many inputs at which the condition holds; none where it does not read, or with more inputs than a machine may have.
pub fn set_of(text: &[u8], inputs: usize) -> [u64; WORDS]
    ensures few { inputs ≤ most_inputs → SetOf words (2 ^ inputs) (λ v. Holds inputs v text.now) result }
    ensures many { most_inputs < inputs → SetOf words 0 (λ v. Holds inputs v text.now) result }
{
    let mut set = [0u64; WORDS];
    for v in 0..settings(inputs) {
        if holds(text, inputs, v) {
            let next = sets::with(set, v);
            set = next;
        }
    }
    set
}
