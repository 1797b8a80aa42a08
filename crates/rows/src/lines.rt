// What a row prints behind its name, a blank before each.
use std::{fmt, io};
use verdict::Answer;

// The number and the place of an answer.
#[derive(Clone, Copy)]
pub(crate) struct Told(pub(crate) Answer);

impl fmt::Display for Told {
    fn fmt<W: fmt::Write>(&self, f: &mut fmt::Formatter<W>) -> fmt::Result {
        let answer = self.0;
        write!(f, "{} {}", answer.number, answer.place)
    }
}

// Numbers behind a bar.
#[derive(Clone, Copy)]
pub(crate) struct Numbers<'a, T>(pub(crate) &'a [T]);

impl<T: fmt::Display> fmt::Display for Numbers<'_, T> {
    fn fmt<W: fmt::Write>(&self, f: &mut fmt::Formatter<W>) -> fmt::Result {
        write!(f, "|")?;
        for n in self.0 {
            write!(f, " {n}")?;
        }
        Ok(())
    }
}

// A row of an answer and what a buffer holds that was lent.
pub(crate) fn answered<T: fmt::Display>(
    out: &impl Print,
    what: impl fmt::Display + Drop,
    told: impl Into<Answer>,
    buffer: &[T],
) -> io::Result<()> {
    println!(out; "{what} | {} {}", Told(told.into()), Numbers(buffer))
}
