// Why a job refuses and what it answers to C, and the check of lent buffers.
#![tactic(auto)]

ghost use Rattle.std.specs.Prelude.{◌≡◌, [], ◌∷◌};
ghost use Rattle.verdict.specs.Checks.{check, Passed, Judged, Short, room_checks};
ghost use Rattle.verdict.specs.Refusals.{number_of, place_of, refused_by, answer_of, verdict_of};

// Document 01's and 02's refusals in the order of their numbers, each with its place where that is not always 0.
#[derive(Clone, Copy, Debug, PartialEq, Eq)]
pub enum Refusal {
    Malformed,
    WrongSize,
    ShortBuffer(usize),
    Beyond(usize),
    Unread(usize),
    OwnSource(usize),
    Repeated(usize),
    TwoRules(usize),
    NoRule(usize),
    Transient(usize),
    SameWord(usize),
    Unreached(usize),
    NoStart,
    NoCouple,
    Unmarked,
    ShortRun(usize),
    NoRun(usize),
    UnsoundLog,
    NoPlan(usize),
    Unvisited,
}

impl Refusal {
    pub fn number(self) -> usize
        ensures { result ≡ number_of self }
    {
        match self {
            Refusal::Malformed => 1,
            Refusal::WrongSize => 2,
            Refusal::ShortBuffer(_) => 3,
            Refusal::Beyond(_) => 4,
            Refusal::Unread(_) => 5,
            Refusal::OwnSource(_) => 6,
            Refusal::Repeated(_) => 7,
            Refusal::TwoRules(_) => 8,
            Refusal::NoRule(_) => 9,
            Refusal::Transient(_) => 10,
            Refusal::SameWord(_) => 11,
            Refusal::Unreached(_) => 12,
            Refusal::NoStart => 13,
            Refusal::NoCouple => 14,
            Refusal::Unmarked => 15,
            Refusal::ShortRun(_) => 16,
            Refusal::NoRun(_) => 17,
            Refusal::UnsoundLog => 18,
            Refusal::NoPlan(_) => 19,
            Refusal::Unvisited => 20,
        }
    }

    pub fn place(self) -> usize
        ensures { result ≡ place_of self }
    {
        match self {
            Refusal::ShortBuffer(needed) | Refusal::ShortRun(needed) => needed,
            Refusal::Beyond(place)
            | Refusal::Unread(place)
            | Refusal::OwnSource(place)
            | Refusal::Repeated(place)
            | Refusal::TwoRules(place)
            | Refusal::NoRule(place)
            | Refusal::Transient(place)
            | Refusal::SameWord(place)
            | Refusal::Unreached(place)
            | Refusal::NoRun(place)
            | Refusal::NoPlan(place) => place,
            _ => 0,
        }
    }
}

// What C is answered: a refusal's number and place; number 0 is success, its place what was written.
#[repr(C)]
#[derive(Clone, Copy, Debug, PartialEq, Eq, Default)]
pub struct Answer {
    pub number: usize,
    pub place: usize,
}

impl From<Refusal> for Answer {
    ghost from_gives = { λ refusal answer. answer ≡ refused_by refusal };

    fn from(refusal: Refusal) -> Answer {
        Answer {
            number: refusal.number(),
            place: refusal.place(),
        }
    }
}

impl From<Result<usize, Refusal>> for Answer {
    ghost from_gives = { λ told answer. answer ≡ answer_of told };

    fn from(told: Result<usize, Refusal>) -> Answer {
        match told {
            Ok(place) => Answer { number: 0, place },
            Err(refusal) => refusal.into(),
        }
    }
}

impl From<Result<(), Refusal>> for Answer {
    ghost from_gives = { λ told answer. answer ≡ verdict_of told };

    fn from(told: Result<(), Refusal>) -> Answer {
        told.map(|()| 0).into()
    }
}

// The elements that a buffer needs, and those that it has.
#[derive(Clone, Copy, Debug, PartialEq, Eq)]
pub struct Room {
    pub needed: usize,
    pub has: usize,
}

impl Room {
    // Refusal 3 of a buffer.
    pub fn check(self) -> Result<(), Refusal>
        ensures { Judged (check 3 (Short self.needed self.has) ∷ []) Passed (verdict_of result) }
    {
        if self.has < self.needed {
            return Err(Refusal::ShortBuffer(self.needed));
        }
        Ok(())
    }
}

// Refusal 3 of three buffers, at the first that is short.
pub fn check_rooms(first: Room, second: Room, third: Room) -> Result<(), Refusal>
    ensures { Judged (room_checks first second third) Passed (verdict_of result) }
{
    first.check()?;
    second.check()?;
    third.check()
}
