// The split of a subquery by a join in it: one mask, whatever the subquery.
ghost use Rattle.std.specs.Prelude.{◌≡◌};
ghost use Rattle.relations.specs.Splits.{parts_by};

// The part with the join's first relation, and the part with its second.
#[derive(Clone, Copy)]
pub struct Parts {
    pub first: usize,
    pub second: usize,
}

// The two parts by the join's side in the whole query: what the set shares with it, and the rest. `SplitLaw` says what they are.
pub fn split(set: usize, side: usize) -> Parts
    ensures { result ≡ parts_by set side }
{
    let first = set & side;
    Parts {
        first,
        second: set - first,
    }
}
