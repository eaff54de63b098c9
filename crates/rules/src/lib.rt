// The plan rules: the stack machine (rules 4.1 to 4.7), and the checker that runs a plan on it.
#![tactic(auto)]

ghost use Rattle.std.specs.Prelude.{◌≤◌};

use query::{Charge, Refusal};

mod combining;
mod judging;
mod prices;
mod reading;
mod stacking;
mod stepping;

pub use combining::combine;
pub use judging::check;

// How many steps a plan may have, and how many bytes it then has at most: its count, and two a step.
pub const MOST_STEPS: usize = 136;

pub const LONGEST_PLAN: usize = 1 + 2 * MOST_STEPS;

// A step: the load of a relation, the send of the top to a site, or the join of the top two.
#[derive(Clone, Copy)]
pub enum Step {
    Load(usize),
    Send(usize),
    Join(usize),
}

// What a held result is: a bare relation, a sent result or a joined result.
#[derive(Clone, Copy, Default, PartialEq, Eq)]
pub enum Origin {
    #[default]
    Bare,
    Sent,
    Joined,
}

// A held result: its set of relations, the site where it stands, what it is, and what it has cost so far.
// That the site is below eight stands in `Room`: a ghost field would ask it of the rules' own results too, which are made of any query.
#[derive(Clone, Copy, Default)]
pub struct Held {
    pub set: usize,
    pub site: usize,
    pub origin: Origin,
    pub figure: Charge,
}

// The held results: depth of them, the top last. Each relation is loaded at most once, so nine are enough.
// (`ArrayVec` of the kit would be these two fields, but a state is `Copy`, which it is not.)
#[derive(Clone, Copy)]
pub struct Stack {
    pub held: [Held; 9],
    pub depth: usize,
    ghost few: { depth ≤ 9 },
}

// The relations loaded so far, as a set, and the held results.
#[derive(Clone, Copy)]
pub struct State {
    pub loaded: usize,
    pub stack: Stack,
}

// Why a plan is rejected, and at which step.
#[derive(Clone, Copy, Debug, PartialEq, Eq)]
pub struct Rejection {
    pub refusal: Refusal,
    pub place: u64,
}
