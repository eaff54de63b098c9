// What a query needs, told before it is run: from the numbers of its relations and sites and its joins alone.
#![tactic(auto)]

mod counting;
mod telling;

pub use telling::room;

// What room tells: the number of subqueries, the cells, one for each subquery and site, and the trials.
#[derive(Clone, Copy)]
pub struct Figures {
    pub subqueries: u64,
    pub cells: u64,
    pub trials: u64,
}
