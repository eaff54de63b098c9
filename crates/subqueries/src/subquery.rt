// Which sets of relations are subqueries: in a tree, those that hold one join fewer than relations. No growth is needed.
ghost use Rattle.std.specs.Prelude.{◌+◌, ◌≡◌};
ghost use Rattle.relations.specs.Trees.{subqueries};
ghost use Rattle.subqueries.specs.Table.{Tabled};

use crate::table::is_connected;
use relations::{Joins, SETS, single};

// The number of subqueries of a tree, by its table.
pub fn count_subqueries(joins: Joins, table: &[u32; SETS]) -> usize
    requires { Tabled joins table.now }
    ensures { result ≡ subqueries joins (joins.count + 1) }
{
    let sets = &table[..single(joins.count + 1)];
    sets.iter().filter(|entry| is_connected(**entry)).count()
}
