// The first pass: the couples whose runs make the plan, or the list apart from it, and the bytes of these runs.
ghost use Rattle.std.specs.Prelude.{◌≡◌, ◌<◌};
ghost use Rattle.plan.specs.inner.Choosing.{looks_at};
ghost use Rattle.plan.specs.inner.Marks.{change_noted, run_noted, wanted_in, TurnIn, ChosenIn};

use crate::marked::Marked;
use machine::COUPLES;
use marking::{EXTRA, UNWEIGHED};

impl<'a> Marked<'a> {
    // Chooses the couples of the plan, or of the list, in rising number, and answers the bytes of their stored runs.
    pub(crate) fn choose(
        &self,
        visited: &mut [bool; COUPLES],
        chosen: &mut [bool; COUPLES],
    ) -> usize
        ensures { ChosenIn self.now result visited.old chosen.old visited.new chosen.new }
    {
        let mut bytes = 0;
        for c in 0..self.couples {
            bytes += self.choose_one(c, visited, chosen);
        }
        bytes
    }

    // Couple c in its turn: chosen where the plan or the list looks at it, and no run chosen before visits it. Answers the bytes of its stored
    // run: two for each of its counts and one for each of its settings.
    fn choose_one(
        &self,
        c: usize,
        visited: &mut [bool; COUPLES],
        chosen: &mut [bool; COUPLES],
    ) -> usize
        requires { c < self.now.couples }
        ensures { TurnIn self.now c result visited.old chosen.old visited.new chosen.new }
    {
        chosen[c] = self.wants(c, visited);
        if !chosen[c] {
            return 0;
        }
        let changes = (self.weights[c] % EXTRA) as usize;
        self.note_run(c, changes, visited);
        let counts = if self.several { 4 } else { 2 };
        counts + changes + 1
    }

    // Whether the plan or the list looks at a couple, and no run chosen before visits it.
    #[tactic(auto, unfolding(crate::specs::inner::Choosing::wanted))]
    fn wants(&self, c: usize, visited: &[bool; COUPLES]) -> bool
        requires { c < self.now.couples }
        ensures { result ≡ wanted_in self.now visited.now c }
    {
        self.looks_at(self.weights[c]) && !visited[c]
    }

    // Whether the plan looks at a couple of this weight: some run visits it; the list, if no run of single changes does.
    #[tactic(auto, unfolding(crate::specs::inner::Choosing::looks_at))]
    fn looks_at(&self, weight: u32) -> bool
        ensures { result ≡ looks_at self.now.several weight }
    {
        weight != UNWEIGHED && (!self.several || EXTRA <= weight)
    }

    // Notes the couples that the run to a couple visits, from its end back to the start.
    #[tactic(auto, using(crate::proofs::Turns::noted_back), unfolding(crate::specs::inner::Choosing::noted_run))]
    fn note_run(&self, couple: usize, changes: usize, visited: &mut [bool; COUPLES])
        requires { couple < self.now.couples }
        ensures { visited.new ≡ run_noted self.now couple changes visited.old }
    {
        let mut c = couple;
        for _ in 0..changes {
            let parent = usize::from(self.parents[c]);
            self.note_change(parent, c % self.size, visited);
            c = parent;
        }
        visited[c] = true;
    }

    // Notes the two couples that a change from couple p to setting v visits.
    #[tactic(auto, unfolding(crate::specs::inner::Choosing::noted_change))]
    fn note_change(&self, p: usize, v: usize, visited: &mut [bool; COUPLES])
        requires { (p < self.now.couples) × (v < self.now.size) }
        ensures { visited.new ≡ change_noted self.now p v visited.old }
    {
        let c = p / self.size * self.size + v;
        let d = usize::from(self.table[c]) * self.size + v;
        visited[c] = true;
        visited[d] = true;
    }
}
