// Whether the two words of a reading differ, and the outputs in which they do, counted.
ghost use Rattle.std.specs.Prelude.{◌≡◌, ℕ, ◌+◌, ◌<◌, get_or};
ghost use Rattle.basics.specs.Words.{most_outputs};
ghost use Rattle.verdict.specs.Below.{list_to};
ghost use Rattle.bench.specs.Readings.{differs, differs_in, one_if};
ghost use Rattle.bench.specs.Log.{most_readings};

use crate::Reading;
use basics::OUTPUTS;

impl Reading {
    // Whether the two words differ.
    pub(crate) fn differs(&self) -> bool
        ensures { result ≡ differs self.now }
    {
        self.expected != self.seen
    }

    // Whether they differ in this output.
    pub(crate) fn differs_in(&self, output: usize) -> bool
        requires { output < most_outputs }
        ensures { result ≡ differs_in output self.now }
    {
        (self.expected >> output) % 2 != (self.seen >> output) % 2
    }

    // One more in the count of each output in which the words differ.
    pub(crate) fn count(&self, counts: &mut [u32; OUTPUTS])
        requires { (j : ℕ) → j < most_outputs → get_or counts.old j 0 < most_readings }
        ensures { counts.new ≡ list_to (λ j. get_or counts.old j 0 + one_if (differs_in j self.now)) most_outputs }
    {
        for (output, count) in counts.iter_mut().enumerate() {
            *count += u32::from(self.differs_in(output));
        }
    }
}
