// Whether a log is sound, and whether it is refused.
ghost use Rattle.std.specs.Prelude.{◌≡◌, ◌≤◌, true, false, sum, leb, eqb, MatchResult};
ghost use Rattle.std.specs.List.{list_all};
ghost use Rattle.basics.specs.Words.{most_outputs};
ghost use Rattle.verdict.specs.Below.{every, list_to};
ghost use Rattle.bench.specs.Readings.{differs, times};
ghost use Rattle.bench.specs.Log.{most_entries, kept_of, count_at, sound, refuses};

use crate::{ENTRIES, Log, READINGS};
use basics::OUTPUTS;
use verdict::Refusal;

impl Log {
    // Refusal 18: the log is not sound, or its readings are at their most.
    pub(crate) fn check(&self) -> Result<(), Refusal>
        ensures { MatchResult result (λ _. refuses self.now ≡ false) (λ refusal. (refuses self.now ≡ true) × (refusal ≡ Refusal.UnsoundLog)) }
    {
        if !self.is_sound() || self.readings == READINGS {
            return Err(Refusal::UnsoundLog);
        }
        Ok(())
    }

    // Whether the log is sound.
    #[tactic(auto, using(crate::proofs::Chains::sound_by))]
    fn is_sound(&self) -> bool
        ensures { result ≡ sound self.now }
    {
        let differing = self.differing as usize;
        self.kept as usize == ENTRIES.min(differing)
            && self.differing <= self.readings
            && self.all_differ()
            && self.all_within()
            && differing <= self.total()
            && (ENTRIES < differing || self.all_counted())
    }

    // Whether the words of each entry kept differ.
    fn all_differ(&self) -> bool
        ensures { result ≡ list_all differs (kept_of self.now) }
    {
        self.entries
            .iter()
            .take(self.kept as usize)
            .all(|entry| entry.differs())
    }

    // Whether no count is above the differing readings.
    fn all_within(&self) -> bool
        ensures { result ≡ list_all (λ c. leb c self.now.differing) self.now.outputs }
    {
        self.outputs.iter().all(|&count| count <= self.differing)
    }

    // The sum of the counts, which may need more than 32 bits.
    fn total(&self) -> usize
        ensures { result ≡ sum self.now.outputs }
    {
        self.outputs.iter().map(|&count| count as usize).sum()
    }

    // Whether each count is that of the entries kept.
    fn all_counted(&self) -> bool
        requires { self.now.kept ≤ most_entries }
        ensures { result ≡ every most_outputs (λ j. eqb (count_at self.now j) (times (kept_of self.now) j)) }
    {
        self.outputs == self.counts()
    }

    // In how many of the entries kept each output differed.
    fn counts(&self) -> [u32; OUTPUTS]
        requires { self.now.kept ≤ most_entries }
        ensures { result ≡ list_to (times (kept_of self.now)) most_outputs }
    {
        let mut counts = [0; OUTPUTS];
        for i in 0..self.kept as usize {
            self.entries[i].count(&mut counts);
        }
        counts
    }
}
