// The tree condition of refusal 4, and the side of each join, worked out once for a query.
ghost use Rattle.std.specs.Prelude.{◌+◌, ◌≡◌};
ghost use Rattle.relations.specs.Trees.{reaches};
ghost use Rattle.relations.specs.Code.{Drawn, SidesOf};

use crate::Joins;
use crate::growing::grow;
use crate::masks::{ends, firsts};
use crate::member::{single, whole};

// The joins reach every relation from relation 0.
pub fn reaches(joins: Joins) -> bool
    requires { Drawn joins }
    ensures { result ≡ reaches joins (joins.count + 1) }
{
    let every = whole(joins.count + 1);
    let around = ends(joins);
    grow(&around[..joins.count], every, None, single(0)) == every
}

// The side of each join. A loop, since `array::from_fn` would be asked at once for every place that growth may start there.
pub fn sides(joins: Joins) -> [usize; 8]
    requires { Drawn joins }
    ensures { SidesOf joins result joins.count }
{
    let every = whole(joins.count + 1);
    let around = ends(joins);
    let from = firsts(joins);
    let mut found = [0; 8];
    for e in 0..joins.count {
        found[e] = grow(&around[..joins.count], every, Some(e), from[e]);
    }
    found
}
