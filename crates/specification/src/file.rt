// The contents of a file: refusal 1.
ghost use Rattle.std.specs.Prelude.{◌≡◌, true, ℕ, [], ◌∷◌, ◌+◌, ◌*◌, ◌<◌, ◌≤◌, ◌^◌, length, take, IfOk};
ghost use Rattle.verdict.specs.Checks.{check, Unless, Decides, Finds, Judged, Passed};
ghost use Rattle.verdict.specs.Refusals.{verdict_of};
ghost use Rattle.specification.specs.Limits.{most_text};
ghost use Rattle.specification.specs.File.{two_at, mark, rests_of, count_of, entry_at, kind_of, offset_of, length_of, body_of, kinds, EntryOf, Entries, Headed, Measured, WellFormed};
ghost use Rattle.specification.specs.inner.Private.{KindFits};

use crate::{BYTES, TEXT};
use verdict::Refusal;

// The kinds of bodies that are always there, an entry each.
pub(crate) const KINDS: usize = 4;

// The kinds of the two bodies that may follow: the settings that are never used, and the allowed starts.
pub(crate) const NEVER: usize = KINDS + 1;

pub(crate) const STARTS: usize = NEVER + 1;

// A file whose length, mark and count are as they should be, and its entries, numbered from 0.
#[derive(Clone, Copy)]
pub(crate) struct Head<'a> {
    pub file: &'a [u8],
    pub ghost headed: { Headed file.now },
}

// A file to which refusal 1 does not apply.
#[derive(Clone, Copy)]
pub(crate) struct Formed<'a> {
    pub file: &'a [u8],
    pub ghost formed: { WellFormed file.now },
}

// A number of two bytes, low byte first.
pub(crate) fn two_at(file: &[u8], at: usize) -> u16
    requires { at + 1 < length file.now }
    ensures { result ≡ two_at file.now at }
{
    u16::from_le_bytes([file[at], file[at + 1]])
}

// Where entry k of the contents begins.
fn entry_at(k: usize) -> usize
    requires { k < 2 ^ 16 }
    ensures { result ≡ entry_at k }
{
    5 + 5 * k
}

// Whether the file has rest conditions, by its mark.
pub(crate) fn has_rests(file: &[u8]) -> bool
    ensures { Decides (take 4 file.now ≡ mark true) result }
{
    file.starts_with(b"SEQ1")
}

// Whether the file begins with one of the two marks.
fn has_mark(file: &[u8]) -> bool
    ensures { Decides (take 4 file.now ≡ mark (rests_of file.now)) result }
{
    has_rests(file) || file.starts_with(b"SEQ2")
}

// Whether the file has the length, the mark and the count.
fn headed(file: &[u8]) -> bool
    ensures { Decides (Headed file.now) result }
{
    if BYTES < file.len() || file.len() < entry_at(KINDS) || !has_mark(file) {
        return false;
    }
    let count = usize::from(file[4]);
    KINDS <= count && entry_at(count) <= file.len()
}

impl<'a> Head<'a> {
    // How many entries there are.
    pub(crate) fn count(self) -> usize
        ensures { result ≡ count_of self.entry.file.now }
    {
        usize::from(self.file[4])
    }

    // Where entry k begins, or the last one ends.
    fn at(self, k: usize) -> usize
        requires { k ≤ count_of self.file.now }
        ensures { result ≡ entry_at k }
    {
        entry_at(k)
    }

    // The kind of entry k.
    fn kind(self, k: usize) -> usize
        requires { k < count_of self.file.now }
        ensures { result ≡ kind_of self.entry.file.now k }
    {
        usize::from(self.file[self.at(k)])
    }

    // Where the body of entry k begins.
    pub(crate) fn offset(self, k: usize) -> usize
        requires { k < count_of self.file.now }
        ensures { result ≡ offset_of self.entry.file.now k }
    {
        usize::from(two_at(self.file, self.at(k) + 1))
    }

    // The length of the body of entry k.
    pub(crate) fn length(self, k: usize) -> usize
        requires { k < count_of self.file.now }
        ensures is { result ≡ length_of self.entry.file.now k }
        ensures few { result < 2 ^ 16 }
    {
        usize::from(two_at(self.file, self.at(k) + 3))
    }

    // The entry of a kind, if there is one.
    pub(crate) fn of_kind(self, kind: usize) -> Option<usize>
        ensures { Finds (EntryOf self.entry.file.now kind) result }
    {
        (0..self.count()).find(|&k| self.kind(k) == kind)
    }

    // Whether the kind of entry k is as it should be: 1 to 4 are always there, and those behind them rise to the last.
    fn kind_fits(self, k: usize) -> bool
        requires { k < count_of self.file.now }
        ensures { Decides (KindFits self.entry.file.now k) result }
    {
        let kind = self.kind(k);
        if k < KINDS {
            return kind == k + 1;
        }
        kind <= STARTS && self.kind(k - 1) < kind
    }

    // Whether the entries have rising kinds and bodies end to end, to the end of the file.
    fn ordered(self) -> bool
        ensures { Decides (Entries self.entry.file.now) result }
    {
        let count = self.count();
        let mut start = self.at(count);
        for k in 0..count {
            if !self.kind_fits(k) || self.offset(k) != start {
                return false;
            }
            start += self.length(k);
        }
        start == self.file.len()
    }

    // Whether the bodies of kinds 1, 2 and 3 have lengths that fit what they hold.
    fn measured(self) -> bool
        ensures { Decides (Measured self.entry.file.now) result }
    {
        self.length(0) == 4 && self.length(1) % 3 == 0 && self.length(2) % 3 == 0
    }

    // Whether the bodies beyond kind 4 have no more bytes than a condition may have.
    pub(crate) fn bodies_fit(self) -> bool
        ensures { Decides ((k : ℕ) → kinds ≤ k → k < count_of self.entry.file.now → length_of self.entry.file.now k ≤ most_text) result }
    {
        (KINDS..self.count()).all(|k| self.length(k) <= TEXT)
    }
}

impl<'a> Formed<'a> {
    // Refusal 1.
    pub(crate) fn check(file: &'a [u8]) -> Result<Formed<'a>, Refusal>
        ensures verdict { Judged (check 1 (Unless (WellFormed file.now)) ∷ []) Passed (verdict_of result) }
        ensures file { IfOk result (λ formed. formed.file.now ≡ file.now) }
    {
        if !headed(file) {
            return Err(Refusal::Malformed);
        }
        let head = Head { file };
        if !head.ordered() || !head.measured() {
            return Err(Refusal::Malformed);
        }
        Ok(Formed { file })
    }

    // The body of entry k.
    pub(crate) fn body(self, k: usize) -> &'a [u8]
        requires { k < count_of self.file.now }
        ensures { result.now ≡ body_of self.entry.file.now k }
    {
        let head = Head { file: self.file };
        let at = head.offset(k);
        &self.file[at..at + head.length(k)]
    }
}
