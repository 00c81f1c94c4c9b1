// The refusals of documents 01 and 02, each with its number and place, and the four numbers that a C caller is answered.
#![tactic(auto)]

ghost use Rattle.std.specs.Prelude.{◌≡◌, pos, ℕ, ◌<◌, ◌^◌};
ghost use Rattle.answer.specs.Number.{number, place, refused_answer, done_answer};
ghost use Rattle.answer.specs.Answers.{answer_of};
ghost use Rattle.answer.specs.Inner.{Small};

// Every refusal, by what is wrong. A case that has a place holds it.
#[derive(Clone, Copy)]
pub enum Refusal {
    Header,
    Group,
    Record(usize),
    Length,
    Missing,
    FactValue(usize),
    FactAbsent(usize),
    State(usize),
    Persona,
    Precondition,
    NoOutcome(usize),
    NotPath,
    LastPath,
    Line(usize),
    NoRoom,
    ManyOutcomes,
}

// Two numbers: S2's mask and its scans; a path's terminal and its length.
#[derive(Clone, Copy)]
pub struct Tally {
    pub value: usize,
    pub count: usize,
}

// What a C caller is answered: include/fernpocket.h says what each number is.
#[repr(C)]
#[derive(Clone, Copy)]
pub struct Answer {
    pub refusal: i64,
    pub place: i64,
    pub value: i64,
    pub count: i64,
}

impl Refusal {
    pub fn number(self) -> usize
        ensures { result ≡ number self }
    {
        match self {
            Refusal::Header => 1,
            Refusal::Group => 2,
            Refusal::Record(_) => 3,
            Refusal::Length => 4,
            Refusal::Missing => 5,
            Refusal::FactValue(_) => 6,
            Refusal::FactAbsent(_) => 7,
            Refusal::State(_) => 8,
            Refusal::Persona => 9,
            Refusal::Precondition => 10,
            Refusal::NoOutcome(_) => 11,
            Refusal::NotPath => 12,
            Refusal::LastPath => 13,
            Refusal::Line(_) => 14,
            Refusal::NoRoom => 15,
            Refusal::ManyOutcomes => 16,
        }
    }

    pub fn place(self) -> usize
        ensures { result ≡ place self }
    {
        match self {
            Refusal::Record(k) => k,
            Refusal::FactValue(k) => k,
            Refusal::FactAbsent(k) => k,
            Refusal::State(k) => k,
            Refusal::NoOutcome(k) => k,
            Refusal::Line(k) => k,
            Refusal::Header => 0,
            Refusal::Group => 0,
            Refusal::Length => 0,
            Refusal::Missing => 0,
            Refusal::Persona => 0,
            Refusal::Precondition => 0,
            Refusal::NotPath => 0,
            Refusal::LastPath => 0,
            Refusal::NoRoom => 0,
            Refusal::ManyOutcomes => 0,
        }
    }
}

// A count or a place as a signed word.
pub fn signed(n: usize) -> i64
    requires { n < 2 ^ 63 }
    ensures { result ≡ pos n }
{
    n as i64
}

// What a call answers where it goes through: no number, one or two.
pub trait Figures {
    ghost figures: { Self → ℕ × ℕ };

    fn figures(self) -> (usize, usize)
        ensures { result ≡ figures self };
}

impl Figures for () {
    ghost figures = { λ _. (0, 0) };

    fn figures(self) -> (usize, usize) {
        (0, 0)
    }
}

// An outcome, a count, a mask, 1 for yes and 0 for no.
impl Figures for usize {
    ghost figures = { λ n. (n, 0) };

    fn figures(self) -> (usize, usize) {
        (self, 0)
    }
}

impl Figures for Tally {
    ghost figures = { λ c. (c.value, c.count) };

    fn figures(self) -> (usize, usize) {
        (self.value, self.count)
    }
}

impl Answer {
    pub fn refused(r: Refusal) -> Answer
        requires { place r < 2 ^ 63 }
        ensures { result ≡ refused_answer r }
    {
        Answer {
            refusal: signed(r.number()),
            place: signed(r.place()),
            value: 0,
            count: 0,
        }
    }

    pub fn done(value: usize, count: usize) -> Answer
        requires { (value < 2 ^ 63) × (count < 2 ^ 63) }
        ensures { result ≡ done_answer value count }
    {
        Answer {
            refusal: 0,
            place: 0,
            value: signed(value),
            count: signed(count),
        }
    }

    // What a C caller is answered for what a call answered.
    pub fn of<T: Figures + Copy>(r: Result<T, Refusal>) -> Answer
        requires { Small T.figures r }
        ensures { result ≡ answer_of T.figures r }
    {
        match r {
            Ok(t) => {
                let (value, count) = t.figures();
                Answer::done(value, count)
            }
            Err(r) => Answer::refused(r),
        }
    }
}
