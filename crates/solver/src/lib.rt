// Solving a query: the cells are filled over its board, and the cheapest plan, its cost and the trials are read off them, or no route.
#![tactic(auto)]

mod writing;

ghost use Rattle.std.specs.Prelude.{◌+◌, ◌≤◌, ◌≡◌, length, drop};
ghost use Rattle.query.specs.Query.{Valid};
ghost use Rattle.rules.specs.Allowed.{longest_plan};
ghost use Rattle.tables.specs.Tables.{cheapest};
ghost use Rattle.tables.specs.Written.{written};
ghost use Rattle.tables.specs.Work.{cells_needed};
ghost use Rattle.solver.specs.Solution.{solution_of, plan_after};

use crate::writing::{cheapest, write_plan};
use board::{NONE, laid_out};
use filler::{Tables, fill};
use query::{Charge, Query};
use relations::SETS;
use subqueries::join_table;

// What solving a query gives: the cost of the cheapest plan, how many bytes it has and the trials; or none, with the trials.
// Both cases have the trials, so it is no Option.
#[derive(Clone, Copy)]
pub enum Solution {
    Found {
        cost: Charge,
        length: usize,
        trials: u64,
    },
    NoRoute {
        trials: u64,
    },
}

// Solves a query over a lent work area, and writes the plan at the front of the other lent area.
pub fn solve(q: &Query, work: &mut [u64], plan: &mut [u8]) -> Solution
    requires { Valid q.now × ((cells_needed q.now ≤ length work.old) × (longest_plan ≤ length plan.old)) }
    ensures answer { result ≡ solution_of q.now (cheapest ◌+◌ q.now) }
    ensures written { plan.new ≡ plan_after (cheapest ◌+◌ q.now) (written ◌+◌ q.now) plan.old }
    ensures cells { (length work.new ≡ length work.old) × (drop (cells_needed q.now) work.new ≡ drop (cells_needed q.now) work.old) }
{
    let board = laid_out(q);
    let table = join_table(q.joins);
    let mut places = [0u32; SETS];
    let tried = fill(&board, &q.sizes, &table, &mut places, &mut *work);
    let trials = q.sites.count as u64 * (tried + q.joins.count as u64);
    let tables = Tables {
        board: &board,
        sizes: &q.sizes,
        places: &places,
        work: &*work,
    };
    let figure = cheapest(&tables, q.target);
    if figure < NONE {
        let length = write_plan(&tables, &mut *plan, q.target, figure);
        return Solution::Found {
            cost: Charge(figure),
            length,
            trials,
        };
    }
    Solution::NoRoute { trials }
}
