// The parts of a query, each with its count and zeros, and the query of zeros. Written out, not by Default: that has no place for
// a count, and says of an array only what each of its places holds.
ghost use Rattle.std.specs.Prelude.{◌≡◌};
ghost use Rattle.query.specs.Zeros.{no_sites, no_relations, no_joins, no_lines, no_query};

use crate::{Lines, Query, Relations, Sites};
use relations::{Joins, SETS};

pub fn no_sites(count: usize) -> Sites
    ensures { result ≡ no_sites count }
{
    Sites {
        count,
        may: [0; 8],
        fixed: [0; 8],
        rate: [0; 8],
    }
}

pub fn no_relations(count: usize) -> Relations
    ensures { result ≡ no_relations count }
{
    Relations {
        count,
        home: [0; 9],
        index: [0; 9],
    }
}

pub fn no_joins(count: usize) -> Joins
    ensures { result ≡ no_joins count }
{
    Joins {
        count,
        first: [0; 8],
        second: [0; 8],
    }
}

pub fn no_lines() -> Lines
    ensures { result ≡ no_lines }
{
    Lines {
        flag: [0; 64],
        fixed: [0; 64],
        rate: [0; 64],
    }
}

// A query of zeros.
#[tactic(auto, unfolding(crate::specs::Zeros::no_query))]
pub fn no_query() -> Query
    ensures { result ≡ no_query }
{
    Query {
        sites: no_sites(0),
        relations: no_relations(0),
        joins: no_joins(0),
        sizes: [0; SETS],
        lines: no_lines(),
        target: 0,
    }
}
