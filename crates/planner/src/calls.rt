// The calls but for the loads. The state goes in by value; link, which may change it, hands it back, and a refusal hands back what came in.
ghost use Rattle.std.specs.Prelude.{◌<◌, ◌≡◌, length, drop};
ghost use Rattle.std.proofs.Math.Option.{none};
ghost use Rattle.query.specs.Terms.{relined};
ghost use Rattle.planner.specs.Link.{link, link_of, sites_listed, terms_in_range};
ghost use Rattle.planner.specs.Solve.{solving_of, solve, used, needed};
ghost use Rattle.planner.specs.Check.{check};
ghost use Rattle.planner.specs.Code.{state_of, done_of, of_link, of_solve, of_check};

use crate::{After, LONGEST_PLAN, Planner, Refusal, Rejection, Solution, Standing};
use query::{Charge, Query, Terms};
use sections::{MOST_FIXED, MOST_RATE};

// The empty planner: nothing stands.
pub fn empty() -> Planner
    ensures { state_of result ≡ none }
{
    Planner { standing: None }
}

// The two sites of a link are listed, and are two.
#[tactic(auto, unfolding(crate::specs::Link::sites_listed))]
fn sites_listed(s: u64, sender: u64, receiver: u64) -> bool
    ensures { result ≡ sites_listed s sender receiver }
{
    (sender < s) & (receiver < s) & (sender != receiver)
}

// The terms of a link are in range: the numbers that the call brings, before they fit the types of `Terms`.
#[tactic(auto, unfolding(crate::specs::Link::terms_in_range))]
fn terms_in_range(opened: u64, fixed: u64, rate: u64) -> bool
    ensures { result ≡ terms_in_range (record { flag = opened; fixed = fixed; rate = rate }) }
{
    (opened <= 1) & (fixed <= MOST_FIXED) & (rate <= MOST_RATE)
}

// The query with the line from the sender to the receiver replaced.
fn relined(q: Query, sender: usize, receiver: usize, terms: Terms) -> Query
    requires { (sender < 8) × (receiver < 8) }
    ensures { result ≡ relined q sender receiver terms }
{
    let at = 8 * sender + receiver;
    let mut lines = q.lines;
    lines.flag[at] = terms.flag;
    lines.fixed[at] = terms.fixed;
    lines.rate[at] = terms.rate;
    Query { lines, ..q }
}

// Link: replaces the line from the sender to the receiver.
#[tactic(auto, unfolding(crate::specs::Link::link, crate::specs::Link::sites_listed, crate::specs::Link::terms_in_range))]
pub fn link(p: Planner, sender: u64, receiver: u64, opened: u64, fixed: u64, rate: u64) -> After<()>
    ensures { done_of (of_link result.answer) result.planner ≡ link (link_of sender receiver opened fixed rate) (state_of p) }
{
    let Some(standing) = p.standing else {
        return After::refused(p, Refusal::NothingLoaded);
    };
    if !sites_listed(standing.query.sites.count as u64, sender, receiver) {
        return After::refused(p, Refusal::LinkSites);
    }
    if !terms_in_range(opened, fixed, rate) {
        return After::refused(p, Refusal::OutOfRange);
    }
    // In the types that their limits fit.
    let terms = Terms {
        flag: opened as u8,
        fixed: fixed as u32,
        rate: rate as u32,
    };
    let linked = Standing {
        query: relined(standing.query, sender as usize, receiver as usize, terms),
        subqueries: standing.subqueries,
    };
    After {
        answer: Ok(()),
        planner: Planner {
            standing: Some(linked),
        },
    }
}

// How many cells solve needs: one for each subquery and site of the standing query, none where nothing stands.
#[tactic(auto, unfolding(tables::specs::Work::cells_needed))]
pub fn cells_needed(p: Planner) -> usize
    ensures { result ≡ needed (state_of p) }
{
    let Some(standing) = p.standing else {
        return 0;
    };
    standing.subqueries * standing.query.sites.count
}

// Solve: writes the cheapest plan at the front of the output and answers its cost, its length and the trials, or answers no route with the
// trials. The plan is first written into an array of its own, so that no byte of the output is touched before it is known that it fits.
// Of the cells those past the used ones are said to stay.
#[tactic(auto, using(crate::proofs::Solving::solving), unfolding(crate::specs::Solve::solve))]
pub fn solve(p: Planner, cells: &mut [u64], output: &mut [u8]) -> Result<Solution, Refusal>
    ensures solved { solving_of (of_solve result) output.new ≡ solve (length cells.old) output.old (state_of p) }
    ensures later { drop (used (state_of p) (length cells.old)) cells.new ≡ drop (used (state_of p) (length cells.old)) cells.old }
{
    let standing = p.standing.ok_or(Refusal::NothingLoaded)?;
    if cells.len() < cells_needed(p) {
        return Err(Refusal::FewCells);
    }
    let mut plan = [0u8; LONGEST_PLAN];
    let solution = solver::solve(&standing.query, cells, &mut plan);
    if let Solution::Found { length, .. } = solution {
        if output.len() < length {
            return Err(Refusal::ShortOutput);
        }
        output[..length].copy_from_slice(&plan[..length]);
    }
    Ok(solution)
}

// Check: answers the plan's cost.
#[tactic(auto, unfolding(crate::specs::Check::check))]
pub fn check(p: Planner, plan: &[u8]) -> Result<Charge, Rejection>
    ensures { of_check result ≡ check plan.now (state_of p) }
{
    let Some(standing) = p.standing else {
        return Err(Rejection {
            refusal: Refusal::NothingLoaded,
            place: 0,
        });
    };
    rules::check(&standing.query, plan)
}
