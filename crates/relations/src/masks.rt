// The joins as sets of relations. Growth, the sides and the table of sets take these, lent, in place of the list of joins.
ghost use Rattle.relations.specs.Code.{Drawn, EndsOf, FirstsOf};

use crate::Joins;
use crate::member::single;
use std::array;

// The two relations of each join. All eight places are gone through, here and below, so that the compiler knows each of them
// and need not copy the lists to index them.
pub fn ends(joins: Joins) -> [usize; 8]
    requires { Drawn joins }
    ensures { EndsOf joins result joins.count }
{
    array::from_fn(|e| {
        if e < joins.count {
            single(usize::from(joins.first[e])) | single(usize::from(joins.second[e]))
        } else {
            0
        }
    })
}

// The first relation of each join.
pub(crate) fn firsts(joins: Joins) -> [usize; 8]
    requires { Drawn joins }
    ensures { FirstsOf joins result joins.count }
{
    let first = &joins.first;
    array::from_fn(|e| {
        if e < joins.count {
            single(usize::from(first[e]))
        } else {
            0
        }
    })
}
