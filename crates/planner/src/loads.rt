// The two loads: the ordinary one, and the one from row counts. The state goes in by value and comes back, as it was where the file is refused.
// They are two calls of the rules, over one function that takes the form.
ghost use Rattle.std.specs.Prelude.{◌≡◌};
ghost use Rattle.planner.specs.Load.{load_by, load, load_rows};
ghost use Rattle.planner.specs.Code.{state_of, done_of, of_load};

use crate::{After, Loaded, Planner, Standing};
use decoder::{Decoded, Form};

// Load: replaces the query by that of an ordinary file; answers the number of relations and of subqueries.
pub fn load(p: Planner, file: &[u8]) -> After<Loaded>
    ensures { done_of (of_load result.answer) result.planner ≡ load file.now (state_of p) }
{
    load_by(p, Form::Sizes, file)
}

// Load from row counts: the same of a file that has row counts and divisors in place of the sizes.
pub fn load_rows(p: Planner, file: &[u8]) -> After<Loaded>
    ensures { done_of (of_load result.answer) result.planner ≡ load_rows file.now (state_of p) }
{
    load_by(p, Form::Rows, file)
}

// A load of a file of either form.
// The room that it takes of the stack is to be free again before a solve takes its own.
#[inline(never)]
#[tactic(auto, unfolding(crate::specs::Load::load_by))]
fn load_by(p: Planner, form: Form, file: &[u8]) -> After<Loaded>
    ensures { done_of (of_load result.answer) result.planner ≡ load_by form file.now (state_of p) }
{
    match decoder::decode(form, file) {
        Err(refusal) => After::refused(p, refusal),
        Ok(Decoded { query, subqueries }) => After {
            answer: Ok(Loaded {
                relations: query.relations.count as u64,
                subqueries: subqueries as u64,
            }),
            planner: Planner {
                standing: Some(Standing { query, subqueries }),
            },
        },
    }
}
