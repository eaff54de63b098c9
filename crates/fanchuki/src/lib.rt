// The call for the report server, which is written in C and hands over bytes.
#![tactic(auto)]

ghost use Rattle.std.specs.Prelude.{◌≤◌, ◌≡◌, length};
ghost use Rattle.query.specs.Refusals.{number_of};
ghost use Rattle.planner.specs.Solve.{needed};
ghost use Rattle.planner.specs.Code.{state_of};
ghost use Rattle.fanchuki.specs.Served.{served, refusal, on_standing, serve};

use planner::{CELLS, Planner, Refusal, Solution};

// As many cells as a small query needs: a call clears what it lends, which takes a good part of a small one.
const FEW: usize = 128;

// What stands for a refusal: this plus its number.
const REFUSED: u64 = 1024;

fn refusal(k: Refusal) -> u64
    ensures { result ≡ refusal (number_of k) }
{
    REFUSED + k.number()
}

// Solves the standing query over cells enough.
fn solved(p: Planner, cells: &mut [u64], output: &mut [u8]) -> u64
    requires { needed (state_of p) ≤ length cells.old }
    ensures { served result output.new ≡ on_standing (state_of p) output.old }
{
    match planner::solve(p, cells, output) {
        Ok(Solution::Found { length, .. }) => length as u64,
        Ok(Solution::NoRoute { .. }) => 0,
        Err(k) => refusal(k),
    }
}

// Loads and solves, in that order, on a planner and over cells of its own. Its two solves differ in a size: a const parameter for it would have to ask
// for a bound that no array asks for.
#[unsafe(no_mangle)]
#[tactic(auto, using(planner::proofs::Cells::needed_enough), unfolding(crate::specs::Served::serve))]
pub extern "C" fn fanchuki_plan(query: &[u8], output: &mut [u8]) -> u64
    ensures { served result output.new ≡ serve query.now output.old }
{
    let loaded = planner::load(planner::empty(), query);
    if let Err(k) = loaded.answer {
        return refusal(k);
    }
    if planner::cells_needed(loaded.planner) <= FEW {
        return solved(loaded.planner, &mut [0u64; FEW], output);
    }
    solved(loaded.planner, &mut [0u64; CELLS], output)
}
