// A text that is written piece by piece over the front of a lent buffer.
ghost use Rattle.std.specs.Prelude.{◌∷◌, [], ◌++◌, map};
ghost use Rattle.basics.specs.Texts.{letters};
ghost use Rattle.show.specs.Digits.{digits};
ghost use Rattle.show.specs.Sheet.{fields_behind};
ghost use Rattle.show.specs.inner.Steps.{Adds};

use crate::Short;

// What is written so far: the first `end` bytes of the buffer.
#[derive(Drop)]
pub(crate) struct Text<'a> {
    pub(crate) out: &'a mut [u8],
    pub(crate) end: usize,
}

impl Text<'_> {
    // Writes a word and a number behind it.
    pub(crate) fn named(&mut self, name: &[u8], n: usize) -> Result<(), Short>
        ensures { Adds (name.now ++ (letters " " ++ digits n)) self.old result self.new }
    {
        self.word(name)?;
        self.field(n)
    }

    // Writes each setting behind a blank, and ends the line.
    pub(crate) fn fields(&mut self, settings: &[u8]) -> Result<(), Short>
        ensures { Adds (fields_behind (map digits settings.now)) self.old result self.new }
    {
        for setting in settings {
            self.field(usize::from(*setting))?;
        }
        self.byte(b'\n')
    }

    // Writes a number behind a blank.
    pub(crate) fn field(&mut self, n: usize) -> Result<(), Short>
        ensures { Adds (letters " " ++ digits n) self.old result self.new }
    {
        self.byte(b' ')?;
        self.number(n)
    }

    // Writes a word.
    fn word(&mut self, word: &[u8]) -> Result<(), Short>
        ensures { Adds word.now self.old result self.new }
    {
        for letter in word {
            self.byte(*letter)?;
        }
        Ok(())
    }

    // Writes a number in decimal: the digits of its tenth part, then the last digit.
    fn number(&mut self, n: usize) -> Result<(), Short>
        ensures { Adds (digits n) self.old result self.new }
    {
        if 10 <= n {
            self.number(n / 10)?;
        }
        self.byte(b'0' + (n % 10) as u8)
    }

    // Writes a byte.
    pub(crate) fn byte(&mut self, b: u8) -> Result<(), Short>
        ensures { Adds (b ∷ []) self.old result self.new }
    {
        if self.out.len() <= self.end {
            return Err(Short);
        }
        self.out[self.end] = b;
        self.end += 1;
        Ok(())
    }
}
