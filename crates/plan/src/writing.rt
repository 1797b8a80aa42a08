// The second pass: the chosen runs, written one behind the other; and the run to one couple.
ghost use Rattle.std.specs.Prelude.{◌≡◌, [], ◌∷◌, true, false, ℕ, ◌+◌, ◌/◌, ◌%◌, ◌≤◌, ◌<◌, length, get_or};
ghost use Rattle.verdict.specs.Buffers.{Front};
ghost use Rattle.machine.specs.Limits.{unmarked};
ghost use Rattle.machine.specs.Plans.{stored_run};
ghost use Rattle.several.specs.Weights.{unweighed};
ghost use Rattle.plan.specs.inner.Writing.{Put};
ghost use Rattle.plan.specs.inner.Marks.{run_in, stored_in, pieces_in};

use crate::marked::Marked;
use machine::COUPLES;
use marking::EXTRA;

impl<'a> Marked<'a> {
    // Writes the chosen runs one behind the other, each into the unused rest of the plan or list.
    #[tactic(auto, using(crate::proofs::Fronts::put_none, crate::proofs::Fronts::put_reach, crate::proofs::Fronts::put_front, crate::proofs::Chains::pieces_none))]
    pub(crate) fn write_plan(&self, chosen: &[bool; COUPLES], out: &mut [u8])
        requires weighed { (c : ℕ) → c < self.now.couples → get_or chosen.now c false ≡ true → get_or self.now.weights.now c 0 ≡ unweighed → ⊥ }
        requires fits { length (pieces_in self.now chosen.now) ≤ length out.old }
        ensures { Front (pieces_in self.now chosen.now) out.old out.new }
    {
        let mut at = 0;
        for c in 0..self.couples {
            if chosen[c] {
                at += self.store(c, &mut out[at..]);
            }
        }
    }

    // Stores the run to a couple, in the list with its multiple changes in front, and answers the bytes written.
    fn store(&self, couple: usize, rest: &mut [u8]) -> usize
        requires couple { (couple < self.now.couples) × (get_or self.now.weights.now couple 0 ≡ unweighed → ⊥) }
        requires fits { length (stored_in self.now couple) ≤ length rest.old }
        ensures { Put (stored_in self.now couple) result rest.old rest.new }
    {
        let weight = self.weights[couple];
        let changes = (weight % EXTRA) as usize;
        if self.several {
            write_count((weight / EXTRA) as u16, rest);
            return 2 + self.store_run(couple, changes, &mut rest[2..]);
        }
        self.store_run(couple, changes, rest)
    }

    // Writes the run to a couple in its stored form, and answers the bytes written.
    fn store_run(&self, couple: usize, changes: usize, rest: &mut [u8]) -> usize
        requires couple { couple < self.now.couples }
        requires fits { (changes < unmarked) × (changes + 3 ≤ length rest.old) }
        ensures { Put (stored_run (run_in self.now couple (changes + 1))) result rest.old rest.new }
    {
        write_count((changes + 1) as u16, rest);
        self.write_run(couple, &mut rest[2..changes + 3]);
        changes + 3
    }

    // Fills a buffer with the last settings of the run to a couple, from the last one back.
    #[tactic(auto, using(crate::proofs::Chains::settings_none, crate::proofs::Chains::settings_back))]
    pub(crate) fn write_run(&self, couple: usize, run: &mut [u8])
        requires { couple < self.now.couples }
        ensures { run.new ≡ run_in self.now couple (length run.old) }
    {
        let mut c = couple;
        for i in (0..run.len()).rev() {
            run[i] = (c % self.size) as u8;
            c = usize::from(self.parents[c]);
        }
    }
}

// Writes a count in two bytes, low byte first.
fn write_count(n: u16, rest: &mut [u8])
    requires { 2 ≤ length rest.old }
    ensures { Put (n % 256 ∷ n / 256 ∷ []) 2 rest.old rest.new }
{
    rest[..2].copy_from_slice(&n.to_le_bytes());
}
