// For the benchmark: many solves of one query on one planner, and many loads of one file.
#![tactic(auto)]

ghost use Rattle.std.specs.Prelude.{◌≤◌, ◌≡◌};
ghost use Rattle.planner.specs.Load.{load_by, load, load_rows};
ghost use Rattle.planner.specs.Code.{state_of, of_solve};
ghost use Rattle.timed.specs.Found.{found_by, answer_in, plans_found};
ghost use Rattle.timed.specs.Loads.{plan_after};

use decoder::Form;
use planner::{CELLS, LONGEST_PLAN, Planner, Refusal, Solution};

// 1 where a plan was found, else 0.
fn found(a: Result<Solution, Refusal>) -> u64
    ensures { (result ≡ found_by (of_solve a) 1) × (result ≤ 1) }
{
    match a {
        Ok(Solution::Found { .. }) => 1,
        _ => 0,
    }
}

// Solves so many times over one work area and one output, and counts the plans that were found.
fn solves(p: Planner, times: u64) -> u64
    ensures { result ≡ found_by (answer_in (state_of p)) times }
{
    let mut cells = [0u64; CELLS];
    let mut output = [0u8; LONGEST_PLAN];
    let mut plans = 0;
    for _ in 0..times {
        plans += found(planner::solve(p, &mut cells, &mut output));
    }
    plans
}

// Loads a query once and solves it so many times.
#[unsafe(no_mangle)]
#[tactic(auto, unfolding(crate::specs::Found::plans_found))]
pub extern "C" fn fanchuki_solves(query: &[u8], times: u64) -> u64
    ensures { result ≡ plans_found query.now times }
{
    solves(planner::load(planner::empty(), query).planner, times)
}

// The planner that a load of a file of either form leaves.
fn loaded(p: Planner, form: Form, file: &[u8]) -> Planner
    ensures { state_of result ≡ (load_by form file.now (state_of p)).next }
{
    match form {
        Form::Sizes => planner::load(p, file).planner,
        Form::Rows => planner::load_rows(p, file).planner,
    }
}

// Loads so many times, each on the planner that the one before handed back, and then solves once.
#[tactic(auto, unfolding(crate::specs::Loads::standing))]
fn loads(form: Form, file: &[u8], times: u64) -> u64
    ensures { result ≡ plan_after (load_by form) file.now times }
{
    let mut p = planner::empty();
    for _ in 0..times {
        p = loaded(p, form, file);
    }
    solves(p, 1)
}

// Loads an ordinary file so many times; 1 where a solve then finds a plan.
#[unsafe(no_mangle)]
pub extern "C" fn fanchuki_loads(query: &[u8], times: u64) -> u64
    ensures { result ≡ plan_after load query.now times }
{
    loads(Form::Sizes, query, times)
}

// The same from row counts: two names of C, over one function.
#[unsafe(no_mangle)]
pub extern "C" fn fanchuki_row_loads(query: &[u8], times: u64) -> u64
    ensures { result ≡ plan_after load_rows query.now times }
{
    loads(Form::Rows, query, times)
}
