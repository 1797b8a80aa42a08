// Tables that passed checks: jobs whose type says so, and the checks that they go on to, 4 and 10 to 13.
ghost use Rattle.std.specs.Prelude.{◌≡◌, false, ℕ, ◌*◌, ◌%◌, ◌<◌, ◌≤◌, ◌^◌, length, get_or, IfOk};
ghost use Rattle.verdict.specs.Checks.{Decides, Finds, Nowhere, Passed, Judged};
ghost use Rattle.verdict.specs.Refusals.{verdict_of};
ghost use Rattle.machine.specs.Moves.{table_moves, Stateless, Transient, SameWord, Reached, Unreached};
ghost use Rattle.machine.specs.Runs.{size, couples, couple, move, Starts};
ghost use Rattle.tables.specs.Tables.{machine_in, Tabled, move_checks, state_checks, Checked};

use crate::Job;
use machine::{STATES, settings};
use verdict::Refusal;

// A job to which refusals 2 and 3 of its table do not apply.
#[derive(Clone, Copy)]
pub struct SizedJob<'a> {
    pub job: Job<'a>,
    pub ghost tabled: { Tabled (machine_in job) },
}

// A job to which refusals 2, 3, 4 and 10 of its table do not apply.
#[derive(Clone, Copy)]
pub struct SoundJob<'a> {
    pub job: Job<'a>,
    pub ghost checked: { Checked (machine_in job) },
}

impl<'a> SizedJob<'a> {
    // How many settings there are.
    pub fn settings(self) -> usize
        ensures { result ≡ size (machine_in self.entry.job) }
    {
        settings(self.job.frame.inputs)
    }

    // How many couples there are.
    pub fn couples(self) -> usize
        ensures { result ≡ couples (machine_in self.entry.job) }
    {
        self.job.frame.states * self.settings()
    }

    // The number of the couple (s, v), in 64 bits.
    pub fn couple(self, s: usize, v: usize) -> usize
        ensures is { result ≡ couple (machine_in self.entry.job) s v % 2 ^ 64 }
        ensures inside { s < self.entry.job.frame.states → v < 2 ^ self.entry.job.frame.inputs → (result ≡ couple (machine_in self.entry.job) s v) × (result < couples (machine_in self.entry.job)) }
    {
        s.wrapping_mul(self.settings()).wrapping_add(v)
    }

    // The move of the couple (s, v).
    pub(crate) fn moved(self, s: usize, v: usize) -> usize
        requires state { s < self.job.frame.states }
        requires setting { v < 2 ^ self.job.frame.inputs }
        ensures { result ≡ move (machine_in self.entry.job) s v }
    {
        usize::from(self.job.table[self.couple(s, v)])
    }

    // Whether a setting is a start.
    pub fn is_start(self, setting: usize) -> bool
        ensures { Decides (Starts (machine_in self.entry.job) setting) result }
    {
        let initial = self.job.frame.initial;
        setting < self.settings()
            && self.moved(initial, setting) == initial
            && self.job.frame.startable(setting)
    }

    // Whether there is a start: otherwise refusal 13.
    pub fn started(self) -> bool
        ensures { Decides ((v : ℕ) × Starts (machine_in self.entry.job) v) result }
    {
        (0..self.settings()).any(|v| self.is_start(v))
    }

    // Refusals 4 and 10.
    pub fn check_moves(self) -> Result<SoundJob<'a>, Refusal>
        ensures verdict { Judged (move_checks (machine_in self.entry.job)) Passed (verdict_of result) }
        ensures job { IfOk result (λ sound. sound.job ≡ self.entry.job) }
    {
        if let Some(couple) = self.first_stateless() {
            return Err(Refusal::Beyond(couple));
        }
        if let Some(couple) = self.first_transient() {
            return Err(Refusal::Transient(couple));
        }
        Ok(SoundJob { job: self.job })
    }

    // Refusal 4: the first couple at which the table holds no state.
    fn first_stateless(self) -> Option<usize>
        ensures { Finds (λ c. (c < couples (machine_in self.entry.job)) × (self.entry.job.frame.states ≤ get_or self.entry.job.table.now c 0)) result }
    {
        let states = self.job.frame.states;
        self.job.table[..self.couples()]
            .iter()
            .position(|&t| states <= usize::from(t))
    }

    // Refusal 10: the first couple that moves to one that is not at rest, in a table of states.
    fn first_transient(self) -> Option<usize>
        requires { Nowhere (Stateless self.job.table.now self.job.frame.states (size (machine_in self.job))) }
        ensures { Finds (Transient (table_moves self.entry.job.table.now (size (machine_in self.entry.job))) self.entry.job.frame.states (size (machine_in self.entry.job))) result }
    {
        let m = self.settings();
        for p in 0..self.couples() {
            let t = usize::from(self.job.table[p]);
            if self.moved(t, p % m) != t {
                return Some(p);
            }
        }
        None
    }
}

impl<'a> SoundJob<'a> {
    // The same job, told less of.
    pub fn sized(self) -> SizedJob<'a>
        ensures { result.job ≡ self.entry.job }
    {
        SizedJob { job: self.job }
    }

    // How many settings there are.
    pub fn settings(self) -> usize
        ensures { result ≡ size (machine_in self.entry.job) }
    {
        self.sized().settings()
    }

    // How many couples there are.
    pub fn couples(self) -> usize
        ensures { result ≡ couples (machine_in self.entry.job) }
    {
        self.sized().couples()
    }

    // The number of the couple (s, v), in 64 bits.
    pub fn couple(self, s: usize, v: usize) -> usize
        ensures is { result ≡ couple (machine_in self.entry.job) s v % 2 ^ 64 }
        ensures inside { s < self.entry.job.frame.states → v < 2 ^ self.entry.job.frame.inputs → (result ≡ couple (machine_in self.entry.job) s v) × (result < couples (machine_in self.entry.job)) }
    {
        self.sized().couple(s, v)
    }

    // The move of the couple (s, v): what the table has at its number in 64 bits, and 0 beyond the table.
    pub fn moved(self, s: usize, v: usize) -> usize
        ensures is { result ≡ get_or self.entry.job.table.now (couple (machine_in self.entry.job) s v % 2 ^ 64) 0 }
        ensures inside { s < self.entry.job.frame.states → v < 2 ^ self.entry.job.frame.inputs → (result ≡ move (machine_in self.entry.job) s v) × (result < self.entry.job.frame.states) }
    {
        self.job
            .table
            .get(self.couple(s, v))
            .map_or(0, |&t| usize::from(t))
    }

    // Refusals 11, 12 and 13.
    pub(crate) fn check_states(self, words: &[u16]) -> Result<(), Refusal>
        requires { self.job.frame.states ≤ length words.now }
        ensures { Judged (state_checks (machine_in self.entry.job) words.now) Passed (verdict_of result) }
    {
        let states = self.job.frame.states;
        if let Some(state) = first_same(words, states) {
            return Err(Refusal::SameWord(state));
        }
        if let Some(state) = self.first_unreached() {
            return Err(Refusal::Unreached(state));
        }
        if !self.sized().started() {
            return Err(Refusal::NoStart);
        }
        Ok(())
    }

    // Refusal 12: the first state that is never reached.
    fn first_unreached(self) -> Option<usize>
        ensures { Finds (Unreached (table_moves self.entry.job.table.now (size (machine_in self.entry.job))) self.entry.job.frame.states (size (machine_in self.entry.job)) self.entry.job.frame.initial) result }
    {
        let seen = self.reached();
        (0..self.job.frame.states).find(|&s| !seen[s])
    }

    // Which states are reached: a scan of the couples that starts again whenever it adds a state.
    fn reached(self) -> [bool; STATES]
        ensures { (s : ℕ) → s < self.entry.job.frame.states → Decides (Reached (table_moves self.entry.job.table.now (size (machine_in self.entry.job))) (size (machine_in self.entry.job)) self.entry.job.frame.initial s) (get_or result s false) }
    {
        let m = self.settings();
        let total = self.couples();
        let mut seen = [false; STATES];
        seen[self.job.frame.initial] = true;
        let mut p = 0;
        while p < total {
            let s = p / m;
            let t = usize::from(self.job.table[p]);
            p += 1;
            if seen[s] && !seen[t] {
                seen[t] = true;
                p = 0;
            }
        }
        seen
    }
}

// Refusal 11: the first state with the output word of an earlier one.
fn first_same(words: &[u16], states: usize) -> Option<usize>
    requires { states ≤ length words.now }
    ensures { Finds (SameWord (λ (q : ℕ). get_or words.now q 0) states) result }
{
    for s in 0..states {
        if words[..s].contains(&words[s]) {
            return Some(s);
        }
    }
    None
}

#[cfg(test)]
mod tests {
    use crate::Job;
    use machine::Frame;
    use sets::WORDS;
    use std::test::Fail;

    // Document 01's lamp, a number beyond its table, and one that comes round.
    #[test]
    fn moves(rt: HostRuntime) -> Result<(), Fail> {
        let frame = Frame {
            inputs: 1,
            states: 2,
            initial: 0,
            never: [0; WORDS],
            starts: [0; WORDS],
        };
        let sound = Job::single(frame, &[0, 1, 0, 1]).check_table()?;
        for (s, v, to) in [
            (0, 0, 0),
            (0, 1, 1),
            (1, 0, 0),
            (1, 1, 1),
            (1, 2, 0),
            (usize::MAX, 3, 1),
        ] {
            assert_eq!(rt; sound.moved(s, v), to, "at ({s}, {v})");
        }
        Ok(())
    }
}
