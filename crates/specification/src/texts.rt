// The texts of a file and what they say: refusal 5.
ghost use Rattle.std.specs.Prelude.{◌≡◌, ◌<◌, [], ◌∷◌};
ghost use Rattle.verdict.specs.Checks.{check, Decides, Judged, Passed};
ghost use Rattle.verdict.specs.Refusals.{refused_by, verdict_of};
ghost use Rattle.condition.specs.Condition.{Holds};
ghost use Rattle.specification.specs.Records.{records};
ghost use Rattle.specification.specs.Rules.{text_of, conditions, condition_of, Unreads};
ghost use Rattle.specification.specs.Reading.{record_checks, CharacterFor};
ghost use Rattle.specification.specs.inner.Private.{Placed, sound_checks};

use crate::EVOLUTIONS;
use crate::file::{Formed, KINDS};
use crate::records::{Records, Sizes};
use crate::specification::Specification;
use machine::STATES;
use verdict::Refusal;

// The most places of texts: where that of each record begins, and where the last one ends.
pub(crate) const TEXTS: usize = STATES + EVOLUTIONS + 1;

// A file to which refusals 1 and 2 do not apply, where the text of each record begins, and where the last one ends.
#[derive(Clone, Copy)]
pub(crate) struct Texts<'a> {
    pub file: &'a [u8],
    pub z: Sizes,
    pub places: &'a [usize; TEXTS],
    pub ghost placed: { Placed file.now z places.now },
}

impl<'a> Specification<'a> {
    // Where the text of each record begins, and where the last one ends.
    pub(crate) fn places(self) -> [usize; TEXTS]
        ensures { Placed self.entry.file.now self.entry.z result }
    {
        let records = Records {
            file: self.file,
            z: self.z,
        };
        let count = self.z.states + self.z.evolutions;
        let mut places = [0; TEXTS];
        let mut at = records.at(count);
        for r in 0..count {
            places[r] = at;
            at += usize::from(records.text_length(r));
        }
        places[count] = at;
        places
    }

    // The character of refusal 5, that of its record's condition; 0 with every other.
    pub(crate) fn character(self, refusal: Refusal) -> usize
        requires { Judged (sound_checks self.file.now self.z) Passed (refused_by refusal) }
        ensures { CharacterFor self.entry.file.now self.entry.z (refused_by refusal) result }
    {
        let Refusal::Unread(r) = refusal else {
            return 0;
        };
        let places = self.places();
        let texts = Texts {
            file: self.file,
            z: self.z,
            places: &places,
        };
        match condition::read(texts.condition(r), self.z.inputs, 0) {
            Ok(_) => 0,
            Err(unread) => unread.character,
        }
    }
}

impl<'a> Texts<'a> {
    // The condition of record r.
    fn text(self, r: usize) -> &'a [u8]
        requires { r < records self.z }
        ensures { result.now ≡ text_of self.entry.file.now self.entry.z r }
    {
        &self.file[self.places[r]..self.places[r + 1]]
    }

    // Condition r: that of a record, or a body beyond kind 4.
    fn condition(self, r: usize) -> &'a [u8]
        requires { r < conditions self.z }
        ensures { result.now ≡ condition_of self.entry.file.now self.entry.z r }
    {
        let count = self.z.states + self.z.evolutions;
        if r < count {
            return self.text(r);
        }
        Formed { file: self.file }.body(KINDS + (r - count))
    }

    // Whether the condition of record r holds at the setting v.
    pub(crate) fn holds(self, r: usize, v: usize) -> bool
        requires { r < records self.z }
        ensures { Decides (Holds self.entry.z.inputs v (text_of self.entry.file.now self.entry.z r)) result }
    {
        condition::holds(self.text(r), self.z.inputs, v)
    }

    // Refusal 5.
    fn check_conditions(self) -> Result<(), Refusal>
        ensures { Judged (check 5 (Unreads self.entry.file.now self.entry.z) ∷ []) Passed (verdict_of result) }
    {
        let z = self.z;
        let count = z.states + z.evolutions + z.more;
        for r in z.worded..count {
            let Ok(_) = condition::read(self.condition(r), z.inputs, 0) else {
                return Err(Refusal::Unread(r));
            };
        }
        Ok(())
    }

    // Refusals 4 to 7.
    pub(crate) fn check_records(self) -> Result<(), Refusal>
        ensures { Judged (record_checks self.entry.file.now self.entry.z) Passed (verdict_of result) }
    {
        let records = Records {
            file: self.file,
            z: self.z,
        };
        if let Some(r) = records.first_beyond() {
            return Err(Refusal::Beyond(r));
        }
        self.check_conditions()?;
        if let Some(r) = records.first_own() {
            return Err(Refusal::OwnSource(r));
        }
        if let Some(r) = records.first_twice() {
            return Err(Refusal::Repeated(r));
        }
        Ok(())
    }
}
