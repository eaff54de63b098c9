// The section Sizes: an amount for each subquery, in ascending number.
ghost use Rattle.std.specs.Prelude.{◌+◌, ◌≡◌, replicate};
ghost use Rattle.relations.specs.Code.{most_sets};
ghost use Rattle.relations.specs.Trees.{subqueries};
ghost use Rattle.subqueries.specs.Table.{Tabled};
ghost use Rattle.sections.specs.Code.{read_into};
ghost use Rattle.decoder.specs.Sizes.{sizes_section};

use query::Refusal;
use relations::{Joins, SETS, single};
use sections::Part;
use sizing::MOST_SIZE;
use subqueries::is_connected;

// The sizes of the subqueries of a tree, which are due in number, by its table, into a list of zeros.
#[tactic(auto, using(crate::proofs::SizeLaws::sizes), unfolding(crate::specs::Sizes::sizes_section))]
pub(crate) fn read_sizes(
    part: &mut Part,
    joins: Joins,
    table: &[u32; SETS],
    due: usize,
    sizes: &mut [u32; SETS],
) -> Result<(), Refusal>
    requires tabled { Tabled joins table.now }
    requires due_is { due ≡ subqueries joins (joins.count + 1) }
    requires sizes_are_zero { sizes.old ≡ replicate most_sets 0 }
    ensures { read_into result sizes.new part.new ≡ sizes_section joins (joins.count + 1) part.old }
{
    part.field(2, Refusal::WrongCount, due as u64, due as u64)?;
    for set in 0..single(joins.count + 1) {
        if is_connected(table[set]) {
            sizes[set] = part.amount_up_to(MOST_SIZE)?;
        }
    }
    Ok(())
}
