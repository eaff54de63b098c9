// The sizes of all subqueries, each in one step from a subquery with one relation fewer: the one without the relation that joins in last. A relation
// waits for a subquery where it would join in after all of it. Going on from a subquery to those with one that waits for it comes to every
// subquery just once.
ghost use Rattle.std.specs.Prelude.{◌+◌, ◌^◌, ◌≤◌, ◌<◌, ◌≡◌, replicate};
ghost use Rattle.relations.specs.Code.{most_sets};
ghost use Rattle.subqueries.specs.Table.{Tabled};
ghost use Rattle.sizing.specs.Worked.{worked_sizes};
ghost use Rattle.sizing.specs.Code.{Counts, above, lists_of, Begun, Extended, Startable, Extendable};

use crate::joining::joined_size;
use crate::neighbours::neighbours;
use relations::{Joins, SETS, single, whole};
use subqueries::{is_connected, joins_in};

// The relations of n that are above the lowest of a set and not in it.
fn above(n: usize, set: usize) -> usize
    requires { (n ≤ 9) × ((0 < set) × (set < 2 ^ n)) }
    ensures { result ≡ above n set }
{
    let low = set.trailing_zeros() as usize;
    whole(n) - set - (single(low) - 1)
}

// What every step reads: the joins, their table, the row counts and divisors, and the neighbours of each relation.
#[derive(Clone, Copy)]
struct Given<'a> {
    joins: Joins,
    table: &'a [u32; SETS],
    rows: &'a [u32; 9],
    divisors: &'a [u32; 9],
    near: &'a [usize; 9],
}

impl Given<'_> {
    // Each relation by itself has its rows; the neighbours above it wait for it.
    fn begin(&self, waiting: &mut [usize; SETS], sizes: &mut [u32; SETS])
        requires { Startable self.now.joins self.now.near.now (lists_of sizes.old waiting.old) }
        ensures { Begun self.now.joins (self.now.joins.count + 1) self.now.rows.now self.now.divisors.now
            (lists_of sizes.old waiting.old) (lists_of sizes.new waiting.new) (self.now.joins.count + 1) }
    {
        for r in 0..=self.joins.count {
            let set = single(r);
            sizes[set] = self.rows[r];
            waiting[set] = self.near[r] & above(self.joins.count + 1, set);
        }
    }

    // From a subquery to those with one of the relations that wait for it. For these wait the higher ones that waited beside it, and its own neighbours.
    fn extend(&self, waiting: &mut [usize; SETS], sizes: &mut [u32; SETS], set: usize)
        requires { Extendable self.now.joins (self.now.joins.count + 1) self.now.table.now self.now.rows.now self.now.divisors.now self.now.near.now
            (lists_of sizes.old waiting.old) set }
        ensures { Extended self.now.joins (self.now.joins.count + 1) self.now.rows.now self.now.divisors.now set
            (lists_of sizes.old waiting.old) (lists_of sizes.new waiting.new) }
    {
        let size = sizes[set];
        let held = joins_in(self.table[set]);
        let mut left = waiting[set];
        while left != 0 {
            let r = left.trailing_zeros() as usize;
            let one = single(r);
            left -= one;
            let more = set + one;
            let e = (joins_in(self.table[more]) - held).trailing_zeros() as usize;
            sizes[more] = joined_size(size, self.rows[r], self.divisors[e]);
            waiting[more] = left | self.near[r] & above(self.joins.count + 1, set);
        }
    }
}

// The worked sizes of all subqueries of a tree, by its table, into a list of zeros.
pub fn work_out(
    joins: Joins,
    table: &[u32; SETS],
    rows: &[u32; 9],
    divisors: &[u32; 9],
    sizes: &mut [u32; SETS],
)
    requires tabled { Tabled joins table.now }
    requires counts { Counts rows.now × Counts divisors.now }
    requires sizes_are_zero { sizes.old ≡ replicate most_sets 0 }
    ensures { sizes.new ≡ worked_sizes joins (joins.count + 1) rows.now divisors.now }
{
    let near = neighbours(joins);
    let given = Given {
        joins,
        table,
        rows,
        divisors,
        near: &near,
    };
    let mut waiting = [0; SETS];
    given.begin(&mut waiting, sizes);
    for set in 1..single(joins.count + 1) {
        if is_connected(table[set]) {
            given.extend(&mut waiting, sizes, set);
        }
    }
}
