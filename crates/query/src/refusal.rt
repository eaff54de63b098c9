// Why a file, a call, a plan or a step of one is refused.
ghost use Rattle.std.specs.Prelude.{◌≤◌, ◌≡◌, Some};
ghost use Rattle.query.specs.Refusals.{number_of, refused_text};

use std::fmt;

// Each refusal of rules 8.1 and 8.2.
#[derive(Clone, Copy, Debug, PartialEq, Eq)]
pub enum Refusal {
    Cut = 1,
    WrongCount = 2,
    OutOfRange = 3,
    NotReached = 4,
    BytesFollow = 5,
    LinkSites = 6,
    PlanLength = 7,
    UnknownStep = 8,
    LoadedBefore = 9,
    SendNotAllowed = 10,
    JoinNotAllowed = 11,
    WrongEnd = 12,
    NothingLoaded = 20,
    FewCells = 21,
    ShortOutput = 23,
}

impl Refusal {
    // The number that the rules give it.
    pub fn number(self) -> u64
        ensures value { result ≡ number_of self }
        ensures small { result ≤ 23 }
    {
        self as u64
    }
}

// `refused 4`
impl fmt::Display for Refusal {
    ghost output = { λ r. Some (refused_text r) };

    fn fmt<W: fmt::Write>(&self, f: &mut fmt::Formatter<W>) -> fmt::Result {
        write!(f, "refused {}", self.number())
    }
}
