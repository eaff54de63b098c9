// The figures of a tree, by the table of its sets.
ghost use Rattle.std.specs.Prelude.{◌+◌, ◌^◌, ◌≤◌, ◌≡◌};
ghost use Rattle.relations.specs.Trees.{Tree};
ghost use Rattle.subqueries.specs.Table.{Tabled};
ghost use Rattle.tables.specs.Tables.{joins_below};
ghost use Rattle.room.specs.Room.{figures_of};
ghost use Rattle.room.specs.Code.{figures_are};

use crate::Figures;
use relations::{Joins, SETS, single};
use subqueries::{count_subqueries, is_connected, join_table};

// The joins in all subqueries: each has one fewer than relations.
#[tactic(auto, using(crate::proofs::Counted::counts))]
fn count_joins(joins: Joins, table: &[u32; SETS]) -> u64
    requires { Tabled joins table.now }
    ensures { result ≡ joins_below joins (joins.count + 1) (2 ^ (joins.count + 1)) × (result ≤ 4096) }
{
    let mut tried = 0u64;
    for set in 1..single(joins.count + 1) {
        if is_connected(table[set]) {
            tried += u64::from(set.count_ones()) - 1;
        }
    }
    tried
}

// What a tree needs at s sites.
#[tactic(auto, using(crate::proofs::Counted::subqueries_few, crate::proofs::Counted::cells_fit))]
pub(crate) fn figures(joins: Joins, s: u64) -> Figures
    requires tree { (joins.count ≤ 8) × Tree joins (joins.count + 1) }
    requires sites_few { s ≤ 8 }
    ensures { figures_are result ≡ figures_of (joins.count + 1) s joins }
{
    let table = join_table(joins);
    let subqueries = count_subqueries(joins, &table) as u64;
    Figures {
        subqueries,
        cells: subqueries * s,
        trials: s * count_joins(joins, &table),
    }
}
