// What reading a file comes to, and what C is answered of it.
ghost use Rattle.std.specs.Prelude.{◌≡◌};
ghost use Rattle.specification.specs.inner.Outcomes.{read_of, refused_of};

use crate::Contents;
use crate::specification::Specification;
use machine::Frame;
use sets::WORDS;
use verdict::{Answer, Refusal};

// A file that is read, and its frame.
#[derive(Clone, Copy)]
pub(crate) struct Reading<'a> {
    pub specification: Specification<'a>,
    pub frame: Frame,
}

// Why a file is not read, with 5 the character at which the condition does not read, else 0; and how many records become zero.
#[derive(Clone, Copy)]
pub(crate) struct Refused {
    pub refusal: Refusal,
    pub character: usize,
    pub blanks: usize,
}

impl<'a> Reading<'a> {
    // The sizes and the frame.
    pub(crate) fn contents(self) -> Contents
        ensures { result ≡ read_of self.entry }
    {
        Contents {
            answer: Answer::default(),
            character: 0,
            outputs: self.specification.z.outputs,
            evolutions: self.specification.z.evolutions,
            frame: self.frame,
        }
    }
}

impl Refused {
    // The refusal; the sizes and the sets are all zero.
    pub(crate) fn contents(self) -> Contents
        ensures { result ≡ refused_of self }
    {
        Contents {
            answer: self.refusal.into(),
            character: self.character,
            outputs: 0,
            evolutions: 0,
            frame: Frame {
                inputs: 0,
                states: 0,
                initial: 0,
                never: [0; WORDS],
                starts: [0; WORDS],
            },
        }
    }
}
