// The planner: the standing state, the two loads, and the calls link, solve and check.
#![tactic(auto)]

ghost use Rattle.std.specs.Prelude.{◌≡◌, Err};
ghost use Rattle.query.specs.Query.{Valid};
ghost use Rattle.planner.specs.Counted.{subqueries_of};

mod calls;
mod loads;

pub use calls::{cells_needed, check, empty, link, solve};
pub use loads::{load, load_rows};
use query::Query;
pub use query::{Charge, Refusal};
pub use rules::{LONGEST_PLAN, Rejection};
pub use solver::Solution;

// The most cells that solve ever needs (`most_cells`).
pub const CELLS: usize = 2112;

// The standing state: a query, or nothing. Its field is private, so that only the calls make one. It goes in and comes back by value.
#[derive(Clone, Copy)]
pub struct Planner {
    standing: Option<Standing>,
}

// A query that stands: it is valid, and its subqueries are counted.
#[derive(Clone, Copy)]
struct Standing {
    query: Query,
    // How many subqueries it has, as the load counted them: solve has to know how many cells it needs before it touches one.
    subqueries: usize,
    ghost valid: { Valid query },
    ghost counted: { subqueries ≡ subqueries_of query },
}

// What a load answers: the number of relations and of subqueries.
#[derive(Clone, Copy)]
pub struct Loaded {
    pub relations: u64,
    pub subqueries: u64,
}

// A call's answer, or its refusal, beside the planner that it leaves.
#[derive(Clone, Copy)]
pub struct After<T> {
    pub answer: Result<T, Refusal>,
    pub planner: Planner,
}

impl<T> After<T> {
    // A refusal changes no state.
    fn refused(planner: Planner, refusal: Refusal) -> Self
        ensures { (result.answer ≡ Err refusal) × (result.planner ≡ planner) }
    {
        After {
            answer: Err(refusal),
            planner,
        }
    }
}
