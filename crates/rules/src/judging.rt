// The checker: a plan is accepted at its own cost exactly when it keeps the rules; else it is rejected with a refusal and a place.
ghost use Rattle.std.specs.Prelude.{ℕ, ◌+◌, ◌*◌, ◌≤◌, ◌≡◌, ◌&&◌, length, eqb, leb, map};
ghost use Rattle.query.specs.Query.{Valid, relations_of};
ghost use Rattle.rules.specs.Machine.{start};
ghost use Rattle.rules.specs.Allowed.{most_steps, finish, run, checked};
ghost use Rattle.rules.specs.Code.{machine_of, verdict_at, verdict_of, step_of_bytes};

use crate::{MOST_STEPS, Rejection, State};
use query::{Charge, Query, Refusal};
use relations::whole;

// The end condition: one result is held, with every relation, at the query site.
#[tactic(auto, unfolding(crate::specs::Allowed::finish))]
fn finish(q: &Query, state: &State) -> Result<Charge, Refusal>
    requires { relations_of q.now ≤ 9 }
    ensures { (i : ℕ) → verdict_at i result ≡ finish q.now i (machine_of state.now).stack }
{
    match state.stack.as_slice() {
        [h] if h.set == whole(q.relations.count) && h.site == q.target => Ok(h.figure),
        _ => Err(Refusal::WrongEnd),
    }
}

// The steps of a plan in order, and the end condition.
#[tactic(auto, unfolding(crate::specs::Allowed::run))]
fn run(q: &Query, steps: &[[u8; 2]]) -> Result<Charge, Rejection>
    requires { Valid q.now × (length steps.now ≤ most_steps) }
    ensures { verdict_of result ≡ run ◌+◌ q.now 0 (map step_of_bytes steps.now) start }
{
    let mut state = State::start();
    for (i, bytes) in steps.iter().enumerate() {
        let place = i as u64;
        state
            .step(q, *bytes)
            .map_err(|refusal| Rejection { refusal, place })?;
    }
    let place = steps.len() as u64;
    finish(q, &state).map_err(|refusal| Rejection { refusal, place })
}

// The count is within its limits, and there are two bytes for each step.
fn is_whole(count: u8, bytes: &[u8]) -> bool
    ensures { result ≡ ((leb 1 count && leb count most_steps) && eqb (length bytes.now) (2 * count)) }
{
    let count = usize::from(count);
    (1..=MOST_STEPS).contains(&count) && bytes.len() == 2 * count
}

// A plan's verdict. Refusal 7: the count is outside its limits, or the length isn't 1 + 2 × count. So nothing is read past the plan's end.
#[tactic(auto, unfolding(crate::specs::Allowed::checked))]
pub fn check(q: &Query, plan: &[u8]) -> Result<Charge, Rejection>
    requires { Valid q.now }
    ensures { verdict_of result ≡ checked ◌+◌ q.now plan.now }
{
    match plan {
        [count, bytes @ ..] if is_whole(*count, bytes) => {
            let (steps, _) = bytes.as_chunks();
            run(q, steps)
        }
        _ => Err(Rejection {
            refusal: Refusal::PlanLength,
            place: 0,
        }),
    }
}
