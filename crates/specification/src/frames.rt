// The frame of a file: its sizes, the settings that are never used, and the allowed starts.
ghost use Rattle.specification.specs.Rules.{FrameOf};
ghost use Rattle.specification.specs.inner.Private.{SetIn};

use crate::file::{Formed, Head, NEVER, STARTS};
use crate::specification::Specification;
use holding::set_of;
use machine::Frame;
use sets::WORDS;

impl<'a> Specification<'a> {
    // The settings at which the body of a kind holds; another set where the file has no such body.
    fn set_in(self, kind: usize, otherwise: [u64; WORDS]) -> [u64; WORDS]
        ensures { SetIn self.entry.file.now self.entry.z kind otherwise result }
    {
        match (Head { file: self.file }).of_kind(kind) {
            Some(k) => set_of(Formed { file: self.file }.body(k), self.z.inputs),
            None => otherwise,
        }
    }

    // Without a kind 5 no setting is ruled out, and without a kind 6 setting 0 alone is an allowed start.
    pub(crate) fn frame(self) -> Frame
        ensures { FrameOf self.entry.file.now self.entry.z result }
    {
        let none = [0u64; WORDS];
        let never = self.set_in(NEVER, none);
        let starts = self.set_in(STARTS, sets::with(none, 0));
        Frame {
            inputs: self.z.inputs,
            states: self.z.states,
            initial: self.z.initial,
            never,
            starts,
        }
    }
}
