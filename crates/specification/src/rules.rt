// Rules and moves: refusal 8, and the table.
ghost use Rattle.std.specs.Prelude.{◌≡◌, None, ℕ, ◌+◌, ◌*◌, ◌<◌, ◌≤◌, length};
ghost use Rattle.verdict.specs.Checks.{Nowhere, Finds};
ghost use Rattle.verdict.specs.Buffers.{Filled};
ghost use Rattle.machine.specs.Limits.{most_states, most_settings};
ghost use Rattle.specification.specs.Records.{records, settings as settingsOf, couples, Own};
ghost use Rattle.specification.specs.Rules.{rule_of, leads_to, TwoRules};
ghost use Rattle.specification.specs.inner.Private.{Follows, Linked, first_rule, rest_of, Noted};

use crate::records::Records;
use crate::texts::{TEXTS, Texts};
use machine::settings;

// What a table holds where there is no move.
pub(crate) const BLANK_MOVE: u8 = 255;

impl<'a> Records<'a> {
    // The state that record r is a rule of.
    fn rule_of(self, r: usize) -> usize
        requires { r < records self.z }
        ensures { result ≡ rule_of self.entry.file.now self.entry.z r }
    {
        if r < self.z.states {
            return r;
        }
        usize::from(self.source(r))
    }

    // The state that record r leads to.
    fn leads_to(self, r: usize) -> u8
        requires { r < records self.z }
        ensures { result ≡ leads_to self.entry.file.now self.entry.z r }
    {
        if r < self.z.states {
            return r as u8;
        }
        self.target(r)
    }

    // The next rule, after record r, of the state that r is a rule of; the number of records where there is none.
    fn next_rule(self, r: usize) -> usize
        requires { r < records self.z }
        ensures { Follows self.entry.file.now self.entry.z r result }
    {
        let s = self.rule_of(r);
        (r + 1..self.count())
            .find(|&q| self.rule_of(q) == s)
            .unwrap_or(self.count())
    }

    // The next rule after each record.
    pub(crate) fn next_rules(self) -> [usize; TEXTS]
        ensures { Linked self.entry.file.now self.entry.z result }
    {
        let mut next = [0; TEXTS];
        for (r, link) in next[..self.count()].iter_mut().enumerate() {
            *link = self.next_rule(r);
        }
        next
    }
}

// The first rule of the state s that has a condition, as those from `worded` on have.
fn first_rule(next: &[usize; TEXTS], worded: usize, s: usize) -> usize
    requires { s < most_states }
    ensures { result ≡ first_rule next.now worded s }
{
    if s < worded { next[s] } else { s }
}

// What stands for the state s where none of its rules that have a condition holds: s itself if it has no rest condition, or the blank.
fn rest_of(worded: usize, s: usize) -> u8
    requires { s < most_states }
    ensures { result ≡ rest_of worded s }
{
    if s < worded { s as u8 } else { BLANK_MOVE }
}

impl<'a> Texts<'a> {
    // Refusal 8: the first couple at which two rules hold. Up to it the table is filled with the moves, blank where no rule holds.
    pub(crate) fn fill_moves(self, next: &[usize; TEXTS], table: &mut [u8]) -> Option<usize>
        requires linked { Linked self.file.now self.z next.now }
        requires leads { (r : ℕ) → r < records self.z → leads_to self.file.now self.z r < self.z.states }
        requires own { Nowhere (Own self.file.now self.z) }
        requires long { couples self.z ≤ length table.old }
        ensures finds { Finds (TwoRules self.entry.file.now self.entry.z (settingsOf self.entry.z)) result }
        ensures fills { Filled (couples self.entry.z) (λ p x. result ≡ None → Noted self.entry.file.now self.entry.z (settingsOf self.entry.z) p x) table.old table.new }
    {
        self.search(next, settings(self.z.inputs), table)
    }

    // The same at m settings.
    fn search(self, next: &[usize; TEXTS], m: usize, table: &mut [u8]) -> Option<usize>
        requires linked { Linked self.file.now self.z next.now }
        requires leads { (r : ℕ) → r < records self.z → leads_to self.file.now self.z r < self.z.states }
        requires own { Nowhere (Own self.file.now self.z) }
        requires room { (m ≤ most_settings) × (self.z.states * m ≤ length table.old) }
        ensures finds { Finds (TwoRules self.entry.file.now self.entry.z m) result }
        ensures fills { Filled (self.entry.z.states * m) (λ p x. result ≡ None → Noted self.entry.file.now self.entry.z m p x) table.old table.new }
    {
        let records = Records {
            file: self.file,
            z: self.z,
        };
        let count = records.count();
        let mut found = None;
        'search: for s in 0..self.z.states {
            let first = first_rule(next, self.z.worded, s);
            let rest = rest_of(self.z.worded, s);
            for v in 0..m {
                let p = s * m + v;
                let mut to = rest;
                let mut r = first;
                while r < count {
                    if self.holds(r, v) {
                        if to != rest {
                            found = Some(p);
                            break 'search;
                        }
                        to = records.leads_to(r);
                    }
                    r = next[r];
                }
                table[p] = to;
            }
        }
        found
    }
}
