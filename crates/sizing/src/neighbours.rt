// The relations that a relation is joined with.
ghost use Rattle.std.specs.Prelude.{ℕ, ◌+◌, ◌<◌, ◌≡◌, length, get_or};
ghost use Rattle.relations.specs.Code.{Drawn, Listed};
ghost use Rattle.sizing.specs.Code.{other_end, neighbours_below, neighbours};

use relations::{Joins, bit, ends, single};
use std::array;

// The other end of a join, as a set, where relation r is one of its ends; else none.
fn other_end(ends: usize, r: usize) -> usize
    requires { r < 64 }
    ensures { result ≡ other_end ends r }
{
    if bit(ends, r) == 1 {
        ends - single(r)
    } else {
        0
    }
}

// The neighbours of relation r, as a set, by the ends of each join.
fn neighbours_of(ends: &[usize], r: usize) -> usize
    requires { r < 64 }
    ensures { result ≡ neighbours_below (λ (e : ℕ). get_or ends.now e 0) r (length ends.now) }
{
    ends.iter()
        .fold(0, |near, around| near | other_end(*around, r))
}

// The neighbours of every relation.
pub(crate) fn neighbours(joins: Joins) -> [usize; 9]
    requires { Drawn joins }
    ensures { Listed result (neighbours joins) 9 (joins.count + 1) }
{
    let around = ends(joins);
    array::from_fn(|r| neighbours_of(&around[..joins.count], r))
}
