// Conditions (document 01): what a text says at a setting, read at a number of inputs, or which character is wrong in it.
//
// Each method of a reader reads the part that begins at `at`, one for each level of the grammar, and one loop for both joins; the levels
// come round again only inside a parenthesis.
#![tactic(auto)]

ghost use Rattle.std.specs.Prelude.{◌≡◌, ◌+◌, ◌==◌, Bool, drop};
ghost use Rattle.std.specs.List.{prefix_len};
ghost use Rattle.verdict.specs.Checks.{Decides};
ghost use Rattle.condition.specs.Grammar.{factor as factor_level, joined as joined_level, or, and, byte as byte_of, joins};
ghost use Rattle.condition.specs.Condition.{Says, Holds};
ghost use Rattle.condition.specs.inner.Parts.{code, At, join_of, level_of, Found};

// The most parentheses open at any place.
pub const PARENTHESES: usize = 8;

// A text does not read, and this character of it is wrong, counted from 1.
#[derive(Clone, Copy, Debug, PartialEq, Eq)]
pub struct Unread {
    pub character: usize,
}

// A part that was read: whether it holds, and where it ends.
#[derive(Clone, Copy)]
struct Part {
    holds: bool,
    end: usize,
}

// The place of the character that a part cannot go on with.
#[derive(Clone, Copy)]
struct Stop {
    place: usize,
}

// What joins parts: `+` terms to a condition, and `.` factors to a term.
#[derive(Clone, Copy)]
enum Join {
    Or,
    And,
}

// The text, what it is read at, and how many parentheses are open.
#[derive(Clone, Copy)]
struct Reader<'a> {
    text: &'a [u8],
    inputs: usize,
    setting: usize,
    opened: usize,
}

// What the text says at the setting, read at this number of inputs.
pub fn read(text: &[u8], inputs: usize, setting: usize) -> Result<bool, Unread>
    ensures { Says inputs setting text.now result }
{
    let reader = Reader {
        text,
        inputs,
        setting,
        opened: 0,
    };
    match reader.condition(0) {
        Err(stop) => Err(Unread {
            character: stop.place + 1,
        }),
        Ok(part) if part.end == text.len() => Ok(part.holds),
        Ok(part) => Err(Unread {
            character: part.end + 1,
        }),
    }
}

// Whether the text is that of a condition which holds at the setting.
pub fn holds(text: &[u8], inputs: usize, setting: usize) -> bool
    ensures { Decides (Holds inputs setting text.now) result }
{
    read(text, inputs, setting).unwrap_or(false)
}

// How many `!` a text begins with.
fn leading(text: &[u8]) -> usize
    ensures { result ≡ prefix_len (λ c. c == code "!") text.now }
{
    text.iter().take_while(|c| **c == b'!').count()
}

impl Join {
    // The character that joins.
    fn byte(self) -> u8
        ensures { result ≡ byte_of (join_of self) }
    {
        match self {
            Join::Or => b'+',
            Join::And => b'.',
        }
    }

    // What is joined to a part and changes nothing.
    fn unit(self) -> bool
        ensures { (b : Bool) → joins (join_of self) result b ≡ b }
    {
        match self {
            Join::Or => false,
            Join::And => true,
        }
    }

    // What two parts say, joined.
    fn of(self, first: bool, second: bool) -> bool
        ensures { result ≡ joins (join_of self) first second }
    {
        match self {
            Join::Or => first | second,
            Join::And => first & second,
        }
    }
}

impl Reader<'_> {
    // Terms joined by `+`.
    #[cycle(levels)]
    fn condition(&self, at: usize) -> Result<Part, Stop>
        ensures { Found (joined_level or) self.now at result }
    {
        self.joined(Join::Or, at)
    }

    // Factors joined by `.`.
    #[cycle(levels)]
    fn term(&self, at: usize) -> Result<Part, Stop>
        ensures { Found (joined_level and) self.now at result }
    {
        self.joined(Join::And, at)
    }

    // Parts joined: a condition, or a term. Inlined in these, as is `part`, so that each has a loop of its own.
    #[cycle(levels)]
    #[inline(always)]
    fn joined(&self, join: Join, at: usize) -> Result<Part, Stop>
        ensures { Found (joined_level (join_of join)) self.now at result }
    {
        let mut all = join.unit();
        let mut from = at;
        loop {
            let next = self.part(join, from)?;
            all = join.of(all, next.holds);
            if !self.stands(next.end, join.byte()) {
                return Ok(Part {
                    holds: all,
                    end: next.end,
                });
            }
            from = next.end + 1;
        }
    }

    // What is joined: terms, or factors.
    #[cycle(levels)]
    #[inline(always)]
    fn part(&self, join: Join, at: usize) -> Result<Part, Stop>
        ensures { Found (level_of join) self.now at result }
    {
        match join {
            Join::Or => self.term(at),
            Join::And => self.factor(at),
        }
    }

    // Any number of `!`, and then a factor that begins with none.
    #[cycle(levels)]
    fn factor(&self, at: usize) -> Result<Part, Stop>
        ensures { Found factor_level self.now at result }
    {
        let bangs = self.bangs(at);
        let bare = self.bare(at + bangs)?;
        Ok(Part {
            holds: bare.holds != (bangs % 2 == 1),
            end: bare.end,
        })
    }

    // How many `!` stand from `at` on.
    fn bangs(&self, at: usize) -> usize
        ensures { result ≡ prefix_len (λ c. c == code "!") (drop at self.now.text.now) }
    {
        self.text.get(at..).map_or(0, leading)
    }

    // A factor that begins with no `!`.
    #[cycle(levels)]
    #[tactic(auto, using(crate::proofs::Parts::single_fails, crate::proofs::Parts::end_fails))]
    fn bare(&self, at: usize) -> Result<Part, Stop>
        requires { At self.now.text.now at (code "!") → ⊥ }
        ensures { Found factor_level self.now at result }
    {
        match self.text.get(at).copied() {
            Some(b'(') => self.enclosed(at),
            Some(b'0') => Ok(Part {
                holds: false,
                end: at + 1,
            }),
            Some(b'1') => Ok(Part {
                holds: true,
                end: at + 1,
            }),
            Some(letter @ b'a'..=b'h') if usize::from(letter - b'a') < self.inputs => Ok(Part {
                holds: (self.setting >> (letter - b'a')) % 2 == 1,
                end: at + 1,
            }),
            _ => Err(Stop { place: at }),
        }
    }

    // A condition in parentheses.
    #[cycle(levels)]
    fn enclosed(&self, at: usize) -> Result<Part, Stop>
        requires { At self.now.text.now at (code "(") }
        ensures { Found factor_level self.now at result }
    {
        if PARENTHESES <= self.opened {
            return Err(Stop { place: at });
        }
        let inner = Reader {
            opened: self.opened + 1,
            ..*self
        };
        let part = inner.condition(at + 1)?;
        if !self.stands(part.end, b')') {
            return Err(Stop { place: part.end });
        }
        Ok(Part {
            holds: part.holds,
            end: part.end + 1,
        })
    }

    // Whether the character c stands at `at`.
    fn stands(&self, at: usize, c: u8) -> bool
        ensures { Decides (At self.now.text.now at c) result }
    {
        self.text.get(at) == Some(&c)
    }
}
