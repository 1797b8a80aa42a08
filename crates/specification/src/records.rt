// Sizes and records: refusals 2, 4, 6 and 7.
ghost use Rattle.std.specs.Prelude.{◌≡◌, ◌+◌, ◌<◌, ◌≤◌, ◌^◌};
ghost use Rattle.verdict.specs.Checks.{Decides, Finds};
ghost use Rattle.verdict.specs.Below.{sum_to};
ghost use Rattle.specification.specs.Records.{records, record_at, word as word_of, source as source_of, target as target_of, text_length, sizes_of, Ranges, Beyond, Own, Twice};
ghost use Rattle.specification.specs.inner.Private.{Inside};

use crate::EVOLUTIONS;
use crate::file::{Formed, Head, KINDS, has_rests, two_at};
use basics::OUTPUTS;
use machine::{INPUTS, STATES};

// The sizes of a file, where its records begin, how many bodies there are beyond kind 4, and the first record that has a condition.
#[derive(Clone, Copy)]
pub(crate) struct Sizes {
    pub inputs: usize,
    pub outputs: usize,
    pub states: usize,
    pub initial: usize,
    pub evolutions: usize,
    pub first: usize,
    pub more: usize,
    pub worded: usize,
}

// A file whose records lie in it, and its sizes, which are in their ranges.
#[derive(Clone, Copy)]
pub(crate) struct Records<'a> {
    pub file: &'a [u8],
    pub z: Sizes,
    pub ghost inside: { Inside file.now z },
}

impl Sizes {
    // Whether each size is in its range.
    pub(crate) fn in_range(self) -> bool
        ensures { Decides (Ranges self) result }
    {
        (1..=INPUTS).contains(&self.inputs)
            && (1..=OUTPUTS).contains(&self.outputs)
            && (1..=STATES).contains(&self.states)
            && self.initial < self.states
            && self.evolutions <= EVOLUTIONS
    }
}

impl<'a> Formed<'a> {
    pub(crate) fn sizes(self) -> Sizes
        ensures { result ≡ sizes_of self.entry.file.now }
    {
        let head = Head { file: self.file };
        let at = head.offset(0);
        let states = usize::from(self.file[at + 2]);
        Sizes {
            inputs: usize::from(self.file[at]),
            outputs: usize::from(self.file[at + 1]),
            states,
            initial: usize::from(self.file[at + 3]),
            evolutions: head.length(2) / 3,
            first: head.offset(1),
            more: head.count() - KINDS,
            worded: if has_rests(self.file) { 0 } else { states },
        }
    }
}

impl<'a> Records<'a> {
    // How many records there are.
    pub(crate) fn count(self) -> usize
        ensures { result ≡ records self.entry.z }
    {
        self.z.states + self.z.evolutions
    }

    // Where record r begins, or the last one ends.
    pub(crate) fn at(self, r: usize) -> usize
        requires { r ≤ records self.z }
        ensures { result ≡ record_at self.entry.z r }
    {
        self.z.first + 3 * r
    }

    // The output word of the state with record r.
    pub(crate) fn word(self, r: usize) -> u16
        requires { r < records self.z }
        ensures { result ≡ word_of self.entry.file.now self.entry.z r }
    {
        two_at(self.file, self.at(r))
    }

    // The source of the evolution with record r.
    pub(crate) fn source(self, r: usize) -> u8
        requires { r < records self.z }
        ensures { result ≡ source_of self.entry.file.now self.entry.z r }
    {
        self.file[self.at(r)]
    }

    // The target of the evolution with record r.
    pub(crate) fn target(self, r: usize) -> u8
        requires { r < records self.z }
        ensures { result ≡ target_of self.entry.file.now self.entry.z r }
    {
        self.file[self.at(r) + 1]
    }

    // The length of the condition of record r.
    pub(crate) fn text_length(self, r: usize) -> u8
        requires { r < records self.z }
        ensures { result ≡ text_length self.entry.file.now self.entry.z r }
    {
        self.file[self.at(r) + 2]
    }

    // The lengths of the conditions of the first records, summed.
    pub(crate) fn texts_sum(self, count: usize) -> usize
        requires { count ≤ records self.z }
        ensures { result ≡ sum_to (text_length self.entry.file.now self.entry.z) count }
    {
        let mut sum = 0;
        for r in 0..count {
            sum += usize::from(self.text_length(r));
        }
        sum
    }

    // Refusal 4 at a record.
    fn beyond(self, r: usize) -> bool
        requires { r < records self.z }
        ensures { Decides (Beyond self.entry.file.now self.entry.z r) result }
    {
        if r < self.z.states {
            return 1 << self.z.outputs <= usize::from(self.word(r));
        }
        self.z.states <= usize::from(self.source(r)) || self.z.states <= usize::from(self.target(r))
    }

    // Refusal 6 at a record.
    fn own(self, r: usize) -> bool
        requires { r < records self.z }
        ensures { Decides (Own self.entry.file.now self.entry.z r) result }
    {
        self.z.states <= r && self.target(r) == self.source(r)
    }

    // Whether record q has the source and target of record r.
    fn same(self, q: usize, r: usize) -> bool
        requires { (q < records self.z) × (r < records self.z) }
        ensures { Decides ((source_of self.entry.file.now self.entry.z q ≡ source_of self.entry.file.now self.entry.z r) × (target_of self.entry.file.now self.entry.z q ≡ target_of self.entry.file.now self.entry.z r)) result }
    {
        self.source(q) == self.source(r) && self.target(q) == self.target(r)
    }

    // Refusal 7 at a record.
    fn twice(self, r: usize) -> bool
        requires { r < records self.z }
        ensures { Decides (Twice self.entry.file.now self.entry.z r) result }
    {
        (self.z.states..r).any(|q| self.same(q, r))
    }

    // Refusal 4: the first record beyond the outputs or the states.
    pub(crate) fn first_beyond(self) -> Option<usize>
        ensures { Finds (Beyond self.entry.file.now self.entry.z) result }
    {
        (0..self.count()).find(|&r| self.beyond(r))
    }

    // Refusal 6: the first evolution to its own source.
    pub(crate) fn first_own(self) -> Option<usize>
        ensures { Finds (Own self.entry.file.now self.entry.z) result }
    {
        (0..self.count()).find(|&r| self.own(r))
    }

    // Refusal 7: the first evolution with the source and target of an earlier one.
    pub(crate) fn first_twice(self) -> Option<usize>
        ensures { Finds (Twice self.entry.file.now self.entry.z) result }
    {
        (0..self.count()).find(|&r| self.twice(r))
    }
}
