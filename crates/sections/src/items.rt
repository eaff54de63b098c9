// The two kinds of items that sections hold: terms (of a site or a line) and two bytes (of a relation or a join).
ghost use Rattle.std.specs.Prelude.{◌+◌, ◌≤◌, ◌≡◌, length, OnOk};
ghost use Rattle.sections.specs.Code.{read_of};

use crate::fields::Part;
use query::{Refusal, Terms};

// The largest fixed amount and rate.
pub const MOST_FIXED: u64 = 1000000;

pub const MOST_RATE: u64 = 1000;

// Two bytes.
#[derive(Clone, Copy)]
pub struct Two {
    pub one: u8,
    pub other: u8,
}

impl<'a> Part<'a> {
    ghost use Rattle.sections.specs.Sections.{terms, two};

    // The terms of a site or a line, in nine bytes.
    #[tactic(auto, unfolding(crate::specs::Sections::terms))]
    pub(crate) fn terms(&mut self) -> Result<Terms, Refusal>
        ensures { read_of result self.new ≡ terms self.old }
    {
        Ok(Terms {
            flag: self.byte_below(2)?,
            fixed: self.amount_up_to(MOST_FIXED)?,
            rate: self.amount_up_to(MOST_RATE)?,
        })
    }

    // Two bytes, the first below a and the second below b.
    #[tactic(auto, unfolding(crate::specs::Sections::two))]
    pub(crate) fn two(&mut self, a: usize, b: usize) -> Result<Two, Refusal>
        requires { (1 ≤ a) × (1 ≤ b) }
        ensures value { read_of result self.new ≡ two a b self.old }
        ensures taken { OnOk result (length self.old ≡ length self.new + 2) }
    {
        Ok(Two {
            one: self.byte_below(a)?,
            other: self.byte_below(b)?,
        })
    }
}
